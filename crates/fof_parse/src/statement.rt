//! What stands around the formula of a statement.

ghost use Rattle.std.specs.Prelude.{◌≡◌, ◌+◌, [], IfOk, option_map};
ghost use Rattle.std.specs.List.{list_all};
ghost use Rattle.fof_lex.specs.Bytes.{is_digit};
ghost use Rattle.fof_parse.specs.Grammar.{is_integer, name_of};
ghost use Rattle.fof_parse.specs.Problem.{role_of};
ghost use Rattle.fof_parse.specs.Reader.Text.{AreIn, from};
ghost use Rattle.fof_parse.specs.Reader.Reading.{one_token, lower_of, fof_of, heading_at};
ghost use Rattle.fof_parse.specs.Reader.Views.{named};

use crate::build::unescaped;
use crate::text::{Text, after_mark, token_at};
use crate::token::{Bracket, Mark, Token};
use containers::Items;
use std::alloc::{AllocError, Global};

/// What a statement is for.
#[derive(Clone, Copy, Debug, PartialEq, Eq)]
pub enum Role {
    Axiom,
    Hypothesis,
    Definition,
    Assumption,
    Lemma,
    Theorem,
    Corollary,
    Plain,
    NegatedConjecture,
    Conjecture,
}

/// The role of this word.
pub fn role_of(word: &[u8]) -> Option<Role>
    ensures { result ≡ role_of word.now }
{
    if word == b"axiom".as_slice() {
        Some(Role::Axiom)
    } else if word == b"hypothesis".as_slice() {
        Some(Role::Hypothesis)
    } else if word == b"definition".as_slice() {
        Some(Role::Definition)
    } else if word == b"assumption".as_slice() {
        Some(Role::Assumption)
    } else if word == b"lemma".as_slice() {
        Some(Role::Lemma)
    } else if word == b"theorem".as_slice() {
        Some(Role::Theorem)
    } else if word == b"corollary".as_slice() {
        Some(Role::Corollary)
    } else if word == b"plain".as_slice() {
        Some(Role::Plain)
    } else if word == b"negated_conjecture".as_slice() {
        Some(Role::NegatedConjecture)
    } else if word == b"conjecture".as_slice() {
        Some(Role::Conjecture)
    } else {
        None
    }
}

fn are_digits(text: &[u8]) -> bool
    ensures { result ≡ list_all is_digit text.now }
{
    for c in text {
        if !matches!(*c, b'0'..=b'9') {
            return false;
        }
    }
    true
}

/// Whether a number is digits with a sign or without one.
fn is_integer(number: &[u8]) -> bool
    ensures { result ≡ is_integer number.now }
{
    match number {
        [b'+' | b'-', digits @ ..] => are_digits(digits),
        _ => are_digits(number),
    }
}

/// The name of a statement at a place.
fn name_at<'a>(text: &Text<'a>, at: usize) -> Option<Token<'a>>
    requires { AreIn text.now }
    ensures { option_map (λ t. (named t, from text.now (at + 1))) result ≡ one_token name_of (from text.now at) }
{
    match token_at(text, at)? {
        Token::Lower(word) => Some(Token::Lower(word)),
        Token::Quoted(word) => Some(Token::Quoted(word)),
        Token::Number(word) if is_integer(word) => Some(Token::Number(word)),
        _ => None,
    }
}

fn lower_at<'a>(text: &Text<'a>, at: usize) -> Option<&'a [u8]>
    requires { AreIn text.now }
    ensures { option_map (λ w. (w.now, from text.now (at + 1))) result ≡ one_token lower_of (from text.now at) }
{
    match token_at(text, at)? {
        Token::Lower(word) => Some(word),
        _ => None,
    }
}

fn fof_at<'a>(text: &Text<'a>, at: usize) -> Option<&'a [u8]>
    requires { AreIn text.now }
    ensures { option_map (λ w. (w.now, from text.now (at + 1))) result ≡ one_token fof_of (from text.now at) }
{
    match token_at(text, at)? {
        Token::Lower(word) if word == b"fof".as_slice() => Some(word),
        _ => None,
    }
}

/// `fof(NAME,ROLE,`, and the place behind it.
#[derive(Clone, Copy, Debug)]
pub struct Heading<'a> {
    pub name: Token<'a>,
    pub role: &'a [u8],
    pub next: usize,
}

/// What a statement begins with.
#[tactic(auto, unfolding(crate::specs::Reader::Reading::heading_at))]
pub fn heading_of<'a>(text: &Text<'a>) -> Option<Heading<'a>>
    requires { AreIn text.now }
    ensures { option_map (λ h. ((named h.name, h.role.now), from text.now h.next)) result
        ≡ heading_at (from text.now 0) }
{
    fof_at(text, 0)?;
    let opened = after_mark(text, 1, Mark::Open(Bracket::Round))?;
    let name = name_at(text, opened)?;
    let first = after_mark(text, opened + 1, Mark::Comma)?;
    let role = lower_at(text, first)?;
    let next = after_mark(text, first + 1, Mark::Comma)?;
    Some(Heading { name, role, next })
}

/// What a name says.
pub fn name_bytes(alloc: Global, name: Token<'_>) -> Result<Items<u8>, AllocError>
    ensures { IfOk result (λ bytes. bytes ≡ named name.entry) }
{
    match name {
        Token::Lower(word) => Items::from_slice(alloc, word),
        Token::Number(word) => Items::from_slice(alloc, word),
        Token::Quoted(word) => Items::from_slice(alloc, unescaped(alloc, word)?.as_slice()),
        _ => Ok(Items::new(alloc)),
    }
}
