//! Whether a statement is good, or why it is bad.

ghost use Rattle.std.specs.Prelude.{◌≡◌, true, Some, None, MatchOption, MatchResult, IfOk};
ghost use Rattle.fol_core.specs.View.{formula_of};
ghost use Rattle.fof_parse.specs.Problem.{role_of};
ghost use Rattle.fof_parse.specs.Reader.Text.{AreIn, from};
ghost use Rattle.fof_parse.specs.Refusal.{first_fault, is_other_language, early_fault, IsBad};
ghost use Rattle.fof_parse.specs.Reader.Views.{named};
ghost use Rattle.fof_parse.specs.Reader.Building.{state_of};
ghost use Rattle.fof_parse.specs.Reader.Verdict.{StatementRead, IsNoStatement, judged, GoodRead};

use crate::build::Draft;
use crate::ending::{is_ending, nests_too_deep};
use crate::formula::{Front, formula_at};
use crate::refusal::BadKind;
use crate::statement::{Heading, Role, heading_of, role_of};
use crate::text::{Text, token_at};
use crate::token::Token;
use fol_core::Formula;
use std::alloc::{AllocError, Global};

fn is_other_language(word: &[u8]) -> bool
    ensures { result ≡ is_other_language word.now }
{
    word == b"tff".as_slice()
        || word == b"thf".as_slice()
        || word == b"tcf".as_slice()
        || word == b"tpi".as_slice()
        || word == b"cnf".as_slice()
}

/// What the first token of a statement says.
fn first_fault(text: &Text<'_>) -> Option<BadKind>
    requires { AreIn text.now }
    ensures { result ≡ first_fault (from text.now 0) }
{
    match token_at(text, 0)? {
        Token::Lower(word) => {
            if word == b"include".as_slice() {
                Some(BadKind::Include)
            } else if is_other_language(word) {
                Some(BadKind::Language)
            } else {
                None
            }
        }
        _ => None,
    }
}

/// What is refused before the grammar is looked at.
fn early_fault(alloc: Global, text: &Text<'_>) -> Result<Option<BadKind>, AllocError>
    requires { AreIn text.now }
    ensures { IfOk result (λ fault. fault ≡ early_fault (from text.now 0)) }
{
    if let Some(kind) = first_fault(text) {
        return Ok(Some(kind));
    }
    if nests_too_deep(alloc, text)? {
        Ok(Some(BadKind::TooDeep))
    } else {
        Ok(None)
    }
}

/// The parts of a statement by the grammar.
#[derive(Drop)]
struct Parts<'a> {
    name: Token<'a>,
    role: &'a [u8],
    formula: Formula,
}

/// The parts of the statement that the text is, or None where it is none by the grammar.
fn parts_of<'a>(
    alloc: Global,
    text: &Text<'a>,
    draft: &mut Draft,
) -> Result<Option<Parts<'a>>, AllocError>
    requires { AreIn text.now }
    ensures { IfOk result (λ parts. MatchOption parts
        (IsNoStatement (from text.now 0))
        (λ p. StatementRead (from text.now 0) (state_of draft.old) (state_of draft.new) (named p.name) p.role.now
        (formula_of p.formula))) }
{
    let Some(Heading { name, role, next }) = heading_of(text) else {
        return Ok(None);
    };
    let mut scope = Vec::new(alloc);
    let Some(Front { formula, next }) = formula_at(alloc, text, draft, &mut scope, next)? else {
        return Ok(None);
    };
    if is_ending(alloc, text, next)? {
        Ok(Some(Parts {
            name,
            role,
            formula,
        }))
    } else {
        Ok(None)
    }
}

/// The role of a statement by the grammar, or its first fault.
fn judge(draft: &Draft, role: Option<Role>, had: bool) -> Result<Role, BadKind>
    ensures { MatchResult result
        (λ r. (judged draft.now.fault draft.now.is_closed role had ≡ None) × (role ≡ Some r))
        (λ k. judged draft.now.fault draft.now.is_closed role had ≡ Some k) }
{
    if let Some(kind) = draft.fault {
        return Err(kind);
    }
    let Some(role) = role else {
        return Err(BadKind::Role);
    };
    if !draft.is_closed {
        return Err(BadKind::FreeVariable);
    }
    if had && role == Role::Conjecture {
        return Err(BadKind::SecondConjecture);
    }
    Ok(role)
}

/// A statement without a fault.
#[derive(Drop)]
pub struct Good<'a> {
    pub name: Token<'a>,
    pub role: Role,
    pub formula: Formula,
}

/// What a statement is. `had` says that an earlier one is a conjecture.
pub fn verdict<'a>(
    alloc: Global,
    text: &Text<'a>,
    draft: &mut Draft,
    had: bool,
) -> Result<Result<Good<'a>, BadKind>, AllocError>
    requires text { AreIn text.now }
    requires no_fault { draft.old.fault ≡ None }
    requires closed { draft.old.is_closed ≡ true }
    ensures { IfOk result (λ v. MatchResult v
        (λ g. GoodRead had (from text.now 0) (state_of draft.old) (state_of draft.new) (named g.name) g.role
        (formula_of g.formula))
        (λ k. IsBad had (from text.now 0) k)) }
{
    if let Some(kind) = early_fault(alloc, text)? {
        return Ok(Err(kind));
    }
    let Some(
        Parts {
            name,
            role,
            formula,
        },
    ) = parts_of(alloc, text, draft)?
    else {
        return Ok(Err(BadKind::Syntax));
    };
    match judge(draft, role_of(role), had) {
        Ok(role) => Ok(Ok(Good {
            name,
            role,
            formula,
        })),
        Err(kind) => Ok(Err(kind)),
    }
}
