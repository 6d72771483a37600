//! Terms in a text.

ghost use Rattle.std.specs.Prelude.{◌≡◌, ◌<◌, ◌^◌, length, map};
ghost use Rattle.fol_core.specs.View.{term_of};
ghost use Rattle.gs3_text.specs.Reading.{Gives, term_at, arguments_at, arguments_from, application_at};

use crate::fault::Fault;
use crate::spelling::{function_of, spelling_at};
use crate::word::{front, number_at};
use containers::{Items, Shared};
use fol_core::{Symbols, Term, Terms};
use std::alloc::Global;

/// A term at the front that nests at most `depth` deep.
#[cycle(term)]
pub(crate) fn term_at<'a>(
    alloc: Global,
    symbols: &Symbols,
    depth: u32,
    bytes: &'a [u8],
) -> Result<(Term, &'a [u8]), Fault>
    ensures { Gives (λ x. (term_of x.0, x.1.now)) result (term_at symbols.now.functions depth bytes.now) }
{
    let Some(inside) = depth.checked_sub(1) else {
        return Err(Fault::Malformed);
    };
    let Some((first, digits)) = front(bytes) else {
        return Err(Fault::Malformed);
    };
    if first != b'#' {
        return application_at(alloc, symbols, inside, bytes);
    }
    match number_at(digits, u64::MAX) {
        Ok((param, rest)) => Ok((Term::Param(param), rest)),
        Err(fault) => Err(fault),
    }
}

/// A symbol with its arguments, which nest at most `depth` deep.
#[cycle(term)]
#[tactic(auto, unfolding(crate::specs::Reading::application_at))]
fn application_at<'a>(
    alloc: Global,
    symbols: &Symbols,
    depth: u32,
    bytes: &'a [u8],
) -> Result<(Term, &'a [u8]), Fault>
    ensures { Gives (λ x. (term_of x.0, x.1.now)) result
        (application_at symbols.now.functions (term_at symbols.now.functions depth) bytes.now) }
{
    let (spelling, rest) = spelling_at(bytes)?;
    let (args, rest) = arguments_at(alloc, symbols, depth, rest)?;
    let function = function_of(alloc, symbols, &spelling, args.get().len())?;
    Ok((Term::App(function, args), rest))
}

/// The arguments in parentheses, or none.
#[cycle(term)]
#[tactic(auto, unfolding(crate::specs::Reading::arguments_at))]
fn arguments_at<'a>(
    alloc: Global,
    symbols: &Symbols,
    depth: u32,
    bytes: &'a [u8],
) -> Result<(Terms, &'a [u8]), Fault>
    ensures { Gives (λ x. (map term_of x.0, x.1.now)) result
        (arguments_at (term_at symbols.now.functions depth) bytes.now) }
{
    match bytes {
        [b'(', rest @ ..] => arguments_from(alloc, symbols, depth, rest),
        _ => Ok((Shared::new(alloc, Items::new(alloc))?, bytes)),
    }
}

/// Arguments up to the closing parenthesis.
#[cycle(term)]
fn arguments_from<'a>(
    alloc: Global,
    symbols: &Symbols,
    depth: u32,
    bytes: &'a [u8],
) -> Result<(Terms, &'a [u8]), Fault>
    ensures { Gives (λ x. (map term_of x.0, x.1.now)) result
        (arguments_from (term_at symbols.now.functions depth) (length bytes.now) bytes.now) }
{
    let mut args = Items::new(alloc);
    let mut rest = bytes;
    'arguments: loop {
        let (arg, after) = match term_at(alloc, symbols, depth, rest) {
            Ok(read) => read,
            Err(fault) => return Err(fault),
        };
        args.push(arg)?;
        let Some((mark, more)) = front(after) else {
            return Err(Fault::Malformed);
        };
        if mark == b',' {
            rest = more;
        } else if mark == b')' {
            return Ok((Shared::new(alloc, args)?, more));
        } else {
            return Err(Fault::Malformed);
        }
    }
}
