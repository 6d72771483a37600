//! Reading terms from the left.
//!
//! A term is read as it is written first, since its symbols are numbered from left to right with their numbers of
//! arguments, which are known only behind the arguments. Terms nest as deep as their parentheses, and the nesting count
//! was tested before.

ghost use Rattle.std.specs.Prelude.{◌≡◌, ◌+◌, ◌<◌, None, Some, length, MatchOption, IfOk, IfSome, option_map};
ghost use Rattle.fof_parse.specs.Reader.Text.{AreIn, from};
ghost use Rattle.fof_parse.specs.Reader.Reading.{one_token, head_of, symbol_head};
ghost use Rattle.fof_parse.specs.Reader.Views.{head_view, symbol_of, raw_of, raws_of};
ghost use Rattle.fof_parse.specs.Reader.Parsing.{ReadsTerm, ReadsTerms, IsProperSymbol, IsProperHead, IsProperTerm};
ghost use Rattle.fof_parse.specs.Reader.Parsing.{AreProperTerms};

use crate::text::{Text, after_mark, token_at};
use crate::token::{Bracket, Mark, Token};
use containers::Items;
use std::alloc::{AllocError, Global};

/// A symbol as it is written.
#[derive(Clone, Copy, Debug)]
pub enum Symbol<'a> {
    Lower(&'a [u8]),
    /// What stands between the quotes, with its escapes.
    Quoted(&'a [u8]),
    Dollar(&'a [u8]),
}

/// A term as it is written.
#[derive(Drop)]
pub enum Raw<'a> {
    Variable(&'a [u8]),
    Number(&'a [u8]),
    Distinct(&'a [u8]),
    Applied(Symbol<'a>, Items<Raw<'a>>),
}

/// What a term begins with.
#[derive(Clone, Copy, Debug)]
enum Head<'a> {
    Symbol(Symbol<'a>),
    Variable(&'a [u8]),
    Number(&'a [u8]),
    Distinct(&'a [u8]),
}

/// What the term at a place begins with.
fn head_at<'a>(text: &Text<'a>, at: usize) -> Option<Head<'a>>
    requires { AreIn text.now }
    ensures head { option_map (λ h. (head_view h, from text.now (at + 1))) result
        ≡ one_token head_of (from text.now at) }
    ensures proper { IfSome result (λ h. IsProperHead (head_view h)) }
    ensures within { IfSome result (λ h. at < length text.now.tokens.now) }
{
    match token_at(text, at)? {
        Token::Lower(word) => Some(Head::Symbol(Symbol::Lower(word))),
        Token::Quoted(word) => Some(Head::Symbol(Symbol::Quoted(word))),
        Token::Dollar(word) => Some(Head::Symbol(Symbol::Dollar(word))),
        Token::Upper(word) => Some(Head::Variable(word)),
        Token::Number(word) => Some(Head::Number(word)),
        Token::Distinct(word) => Some(Head::Distinct(word)),
        Token::Marked(_) | Token::Other => None,
    }
}

/// A term that stands at a place, and the place behind it.
#[derive(Drop)]
pub struct TermFront<'a> {
    pub term: Raw<'a>,
    pub next: usize,
}

/// The terms with commas between them that stand at a place, and the place behind them.
#[derive(Drop)]
struct TermsFront<'a> {
    terms: Items<Raw<'a>>,
    next: usize,
}

/// The term at a place, or None where none stands there.
#[cycle(terms)]
pub fn term_at<'a>(
    alloc: Global,
    text: &Text<'a>,
    at: usize,
) -> Result<Option<TermFront<'a>>, AllocError>
    requires { AreIn text.now }
    ensures { IfOk result (λ front. MatchOption front
        (ReadsTerm (from text.now at) None)
        (λ f. ReadsTerm (from text.now at) (Some (raw_of f.term, from text.now f.next)) × IsProperTerm (raw_of f.term)
        × (at < f.next))) }
{
    let Some(head) = head_at(text, at) else {
        return Ok(None);
    };
    match head {
        Head::Symbol(symbol) => applied_at(alloc, text, symbol, at),
        Head::Variable(word) => {
            let term = Raw::Variable(word);
            Ok(Some(TermFront { term, next: at + 1 }))
        }
        Head::Number(word) => {
            let term = Raw::Number(word);
            Ok(Some(TermFront { term, next: at + 1 }))
        }
        Head::Distinct(word) => {
            let term = Raw::Distinct(word);
            Ok(Some(TermFront { term, next: at + 1 }))
        }
    }
}

/// The term that begins with the symbol at a place, and has the arguments that may stand behind it.
#[cycle(terms)]
fn applied_at<'a>(
    alloc: Global,
    text: &Text<'a>,
    symbol: Symbol<'a>,
    at: usize,
) -> Result<Option<TermFront<'a>>, AllocError>
    requires text { AreIn text.now }
    requires symbol { one_token head_of (from text.now at)
        ≡ Some (symbol_head (symbol_of symbol), from text.now (at + 1)) }
    requires proper { IsProperSymbol (symbol_of symbol) }
    requires within { at < length text.now.tokens.now }
    ensures { IfOk result (λ front. MatchOption front
        (ReadsTerm (from text.now at) None)
        (λ f. ReadsTerm (from text.now at) (Some (raw_of f.term, from text.now f.next)) × IsProperTerm (raw_of f.term)
        × (at < f.next))) }
{
    let Some(inner) = after_mark(text, at + 1, Mark::Open(Bracket::Round)) else {
        let term = Raw::Applied(symbol, Items::new(alloc));
        return Ok(Some(TermFront { term, next: at + 1 }));
    };
    let Some(TermsFront { terms, next }) = terms_at(alloc, text, inner)? else {
        return Ok(None);
    };
    match after_mark(text, next, Mark::Close(Bracket::Round)) {
        None => Ok(None),
        Some(next) => {
            let term = Raw::Applied(symbol, terms);
            Ok(Some(TermFront { term, next }))
        }
    }
}

/// The terms at a place, one or more with commas between them.
#[cycle(terms)]
fn terms_at<'a>(
    alloc: Global,
    text: &Text<'a>,
    at: usize,
) -> Result<Option<TermsFront<'a>>, AllocError>
    requires { AreIn text.now }
    ensures { IfOk result (λ front. MatchOption front
        (ReadsTerms (from text.now at) None)
        (λ f. ReadsTerms (from text.now at) (Some (raws_of f.terms, from text.now f.next)) × AreProperTerms
        (raws_of f.terms) × (at < f.next))) }
{
    let mut terms = Items::new(alloc);
    let mut at = at;
    loop {
        let Some(TermFront { term, next }) = term_at(alloc, text, at)? else {
            return Ok(None);
        };
        terms.push(term)?;
        match after_mark(text, next, Mark::Comma) {
            None => return Ok(Some(TermsFront { terms, next })),
            Some(behind) => at = behind,
        }
    }
}
