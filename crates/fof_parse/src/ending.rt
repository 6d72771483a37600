//! What ends a statement, and how deep its tokens nest.

ghost use Rattle.std.specs.Prelude.{◌≡◌, ◌≤◌, [], nat_lt, reverse, IfOk, option_map};
ghost use Rattle.fof_parse.specs.Reader.Text.{AreIn, from};
ghost use Rattle.fof_parse.specs.Nesting.{count_behind, kept_behind, nesting, most_nesting};
ghost use Rattle.fof_parse.specs.Reader.Views.{token_view};
ghost use Rattle.fof_parse.specs.Reader.Reading.{behind_balanced, begins_closed, is_bare, is_annotated, is_ending};

use crate::text::{Text, after_mark, token_at};
use crate::token::{Bracket, Mark, Token};
use std::alloc::{AllocError, Global};

/// How large the nesting count of a statement may become. It begins at 0. `(`, `~`, the quantifiers, the operators and
/// the upper words add 1, and `)` sets it back to what it was before its `(`.
pub const MAX_NESTING: u32 = 500;

/// The nesting count behind a token, where `kept` has what the open parentheses keep.
fn count_behind(token: Token<'_>, count: u32, kept: &mut Vec<u32>) -> Result<u32, AllocError>
    requires { count ≤ most_nesting }
    ensures count { IfOk result (λ n. n ≡ count_behind count (reverse kept.old.items) (token_view token.entry)) }
    ensures kept { IfOk result (λ n. reverse kept.new.items
        ≡ kept_behind count (reverse kept.old.items) (token_view token.entry)) }
{
    match token {
        Token::Marked(Mark::Open(Bracket::Round)) => {
            kept.push(count)?;
            Ok(count + 1)
        }
        Token::Marked(Mark::Close(Bracket::Round)) => Ok(kept.pop().unwrap_or(count)),
        Token::Marked(Mark::Not) => Ok(count + 1),
        Token::Marked(Mark::Quantifier(_)) => Ok(count + 1),
        Token::Marked(Mark::Binary(_)) => Ok(count + 1),
        Token::Upper(_) => Ok(count + 1),
        _ => Ok(count),
    }
}

/// Whether the nesting count of a statement becomes too large.
pub fn nests_too_deep(alloc: Global, text: &Text<'_>) -> Result<bool, AllocError>
    requires { AreIn text.now }
    ensures { IfOk result (λ deep. deep ≡ nat_lt most_nesting (nesting 0 [] (from text.now 0))) }
{
    let mut kept = Vec::new(alloc);
    let mut count = 0;
    let mut at = 0;
    while let Some(token) = token_at(text, at) {
        count = count_behind(token, count, &mut kept)?;
        if count > MAX_NESTING {
            return Ok(true);
        }
        at += 1;
    }
    Ok(false)
}

/// The place of the bracket that closes none of those which open behind a place. None where brackets do not match, or a
/// full stop or the end comes first.
fn behind_balanced(alloc: Global, text: &Text<'_>, at: usize) -> Result<Option<usize>, AllocError>
    requires { AreIn text.now }
    ensures { IfOk result (λ place. option_map (λ n. from text.now n) place ≡ behind_balanced [] (from text.now at)) }
{
    let mut open = Vec::new(alloc);
    let mut at = at;
    while let Some(token) = token_at(text, at) {
        match token {
            Token::Marked(Mark::Open(bracket)) => open.push(bracket)?,
            Token::Marked(Mark::Close(bracket)) => match open.pop() {
                None => return Ok(Some(at)),
                Some(last) => {
                    if bracket != last {
                        return Ok(None);
                    }
                }
            },
            Token::Marked(Mark::Stop) => return Ok(None),
            _ => {}
        }
        at += 1;
    }
    Ok(None)
}

fn begins_closed(text: &Text<'_>, at: usize) -> bool
    requires { AreIn text.now }
    ensures { result ≡ begins_closed (from text.now at) }
{
    match token_at(text, at) {
        Some(Token::Marked(Mark::Close(_))) => true,
        _ => false,
    }
}

/// Whether `).` stands at a place, and nothing behind it.
fn is_bare(text: &Text<'_>, at: usize) -> bool
    requires { AreIn text.now }
    ensures { result ≡ is_bare (from text.now at) }
{
    match after_mark(text, at, Mark::Close(Bracket::Round)) {
        None => false,
        Some(closed) => match after_mark(text, closed, Mark::Stop) {
            None => false,
            Some(end) => token_at(text, end).is_none(),
        },
    }
}

/// Whether annotations and `).` stand at a place, and nothing behind them.
fn is_annotated(alloc: Global, text: &Text<'_>, at: usize) -> Result<bool, AllocError>
    requires { AreIn text.now }
    ensures { IfOk result (λ b. b ≡ is_annotated (from text.now at)) }
{
    if begins_closed(text, at) {
        return Ok(false);
    }
    match behind_balanced(alloc, text, at)? {
        None => Ok(false),
        Some(end) => Ok(is_bare(text, end)),
    }
}

/// Whether what ends a statement stands at a place, and nothing behind it.
pub fn is_ending(alloc: Global, text: &Text<'_>, at: usize) -> Result<bool, AllocError>
    requires { AreIn text.now }
    ensures { IfOk result (λ b. b ≡ is_ending (from text.now at)) }
{
    match after_mark(text, at, Mark::Comma) {
        None => Ok(is_bare(text, at)),
        Some(annotations) => is_annotated(alloc, text, annotations),
    }
}
