//! A step's line.

ghost use Rattle.std.specs.Prelude.{◌≡◌, ◌^◌};
ghost use Rattle.fol_core.specs.View.{term_of};
ghost use Rattle.gs3_rules.specs.Apply.{rule_of};
ghost use Rattle.gs3_text.specs.Reading.{Gives, strip, whole, number_at, place_at, term_at};
ghost use Rattle.gs3_text.specs.Reading.{close_of, delta_of, gamma_of, step_of};

use crate::fault::Fault;
use crate::term::term_at;
use crate::word::{number_at, strip};
use fol_core::{Symbols, Term};
use gs3_rules::Step;
use std::alloc::Global;

/// The bytes behind the word, which has to stand at the front.
fn behind<'a>(bytes: &'a [u8], word: &[u8]) -> Result<&'a [u8], Fault>
    ensures { Gives (λ rest. rest.now) result (strip word.now bytes.now) }
{
    match strip(bytes, word) {
        Some(rest) => Ok(rest),
        None => Err(Fault::Malformed),
    }
}

/// A place at the front.
fn place_at(bytes: &[u8]) -> Result<(u32, &[u8]), Fault>
    ensures { Gives (λ x. (x.0, x.1.now)) result (place_at bytes.now) }
{
    let (place, rest) = number_at(bytes, u32::MAX as u64)?;
    Ok((place as u32, rest))
}

/// A place behind which nothing stands.
#[tactic(auto, unfolding(crate::specs::Reading::whole))]
fn only_place(bytes: &[u8]) -> Result<u32, Fault>
    ensures { Gives (λ place. place) result (whole (place_at bytes.now)) }
{
    let (place, rest) = place_at(bytes)?;
    if rest.is_empty() {
        Ok(place)
    } else {
        Err(Fault::Malformed)
    }
}

/// A number behind which nothing stands.
#[tactic(auto, unfolding(crate::specs::Reading::whole))]
fn only_number(bytes: &[u8]) -> Result<u64, Fault>
    ensures { Gives (λ n. n) result (whole (number_at (2 ^ 64) bytes.now)) }
{
    let (number, rest) = number_at(bytes, u64::MAX)?;
    if rest.is_empty() {
        Ok(number)
    } else {
        Err(Fault::Malformed)
    }
}

/// A term behind which nothing stands.
#[tactic(auto, unfolding(crate::specs::Reading::whole))]
fn only_term(alloc: Global, symbols: &Symbols, bytes: &[u8]) -> Result<Term, Fault>
    ensures { Gives term_of result (whole (term_at symbols.now.functions 4096 bytes.now)) }
{
    let (term, rest) = term_at(alloc, symbols, 4096, bytes)?;
    if rest.is_empty() {
        Ok(term)
    } else {
        Err(Fault::Malformed)
    }
}

#[tactic(auto, unfolding(crate::specs::Reading::close_of))]
fn close_of(bytes: &[u8]) -> Result<Step, Fault>
    ensures { Gives rule_of result (close_of bytes.now) }
{
    let (atom, rest) = place_at(bytes)?;
    let rest = behind(rest, b" ")?;
    let negated = only_place(rest)?;
    Ok(Step::Close { atom, negated })
}

#[tactic(auto, unfolding(crate::specs::Reading::delta_of))]
fn delta_of(bytes: &[u8]) -> Result<Step, Fault>
    ensures { Gives rule_of result (delta_of bytes.now) }
{
    let (place, rest) = place_at(bytes)?;
    let rest = behind(rest, b" #")?;
    let param = only_number(rest)?;
    Ok(Step::Delta { place, param })
}

#[tactic(auto, unfolding(crate::specs::Reading::gamma_of))]
fn gamma_of(alloc: Global, symbols: &Symbols, bytes: &[u8]) -> Result<Step, Fault>
    ensures { Gives rule_of result (gamma_of symbols.now.functions bytes.now) }
{
    let (place, rest) = place_at(bytes)?;
    let rest = behind(rest, b" ")?;
    let term = only_term(alloc, symbols, rest)?;
    Ok(Step::Gamma { place, term })
}

/// The step whose line this is.
#[tactic(auto, unfolding(crate::specs::Reading::step_of))]
pub(crate) fn step_of(alloc: Global, symbols: &Symbols, line: &[u8]) -> Result<Step, Fault>
    ensures { Gives rule_of result (step_of symbols.now.functions line.now) }
{
    if let Some(rest) = strip(line, b"close ") {
        return close_of(rest);
    }
    if let Some(rest) = strip(line, b"false ") {
        return Ok(Step::FalseAt {
            place: only_place(rest)?,
        });
    }
    if let Some(rest) = strip(line, b"nottrue ") {
        return Ok(Step::NotTrue {
            place: only_place(rest)?,
        });
    }
    if let Some(rest) = strip(line, b"alpha ") {
        return Ok(Step::Alpha {
            place: only_place(rest)?,
        });
    }
    if let Some(rest) = strip(line, b"beta ") {
        return Ok(Step::Beta {
            place: only_place(rest)?,
        });
    }
    if let Some(rest) = strip(line, b"delta ") {
        return delta_of(rest);
    }
    match strip(line, b"gamma ") {
        Some(rest) => gamma_of(alloc, symbols, rest),
        None => Err(Fault::Malformed),
    }
}
