//! One-sided matching.
ghost use Rattle.std.specs.Prelude.{◌≡◌, ◌↔◌, option_map, IfOk, IsTrue};
ghost use Rattle.fol_core.specs.View as plain;
ghost use Rattle.free_terms.specs.Free as free;
ghost use Rattle.free_terms.specs.Gives.{Tells, TellsAll, unused};
ghost use Rattle.free_terms.specs.Matching.{Matches};
ghost use Rattle.free_terms.specs.View.{term_of, terms_of, fills_of};
ghost use Rattle.fol_core.specs.Syntax as syntax;

use crate::fills::{Fill, Fills};
use crate::same::same_term;
use crate::term::{FTerm, FTerms};
use containers::Items;
use fol_core::{Term, Terms};
use std::alloc::{AllocError, Global};

/// Fills for the pattern's variables, those below `count`, with which the pattern is the target, and None
/// exactly where there are none. The target's metavariables count as constants.
pub fn match_into(
    alloc: Global,
    pattern: &Terms,
    count: u32,
    target: &FTerms,
) -> Result<Option<Fills>, AllocError>
    ensures { IfOk result (λ found. Matches (plain.terms_of pattern.now) count (terms_of target.now)
        (option_map fills_of found)) }
{
    let mut fills = none_given(alloc, count)?;
    if match_terms(&mut fills, pattern, target)? {
        Ok(Some(fills))
    } else {
        Ok(None)
    }
}

fn none_given(alloc: Global, count: u32) -> Result<Fills, AllocError>
    ensures { IfOk result (λ fills. fills_of fills ≡ unused count) }
{
    let mut out = Items::new(alloc);
    for _i in 0..count {
        out.push(Fill::Unused)?;
    }
    Ok(out)
}

/// Whether the term is that bound variable.
fn is_bound(t: &FTerm, n: u32) -> bool
    ensures { IsTrue result ↔ (free.bound n ≡ term_of t.now) }
{
    match t {
        FTerm::Bound(m) => n == *m,
        FTerm::Meta(_) | FTerm::Skolem(..) | FTerm::App(..) => false,
    }
}

/// Gives the variable the term, or sees whether what it was given is that term.
fn match_variable(fills: &mut Fills, n: u32, t: &FTerm) -> Result<bool, AllocError>
    ensures { IfOk result (λ told. Tells (fills_of fills.old) (fills_of fills.new)
        (syntax.bound n) (term_of t.now) told) }
{
    match fills.get(n as usize) {
        Some(Fill::Given(u)) => return Ok(same_term(u, t)),
        Some(Fill::Unused) => {}
        None => return Ok(is_bound(t, n)),
    }
    let term = t.copy()?;
    fills.set(n as usize, Fill::Given(term));
    Ok(true)
}

#[cycle(matching)]
fn match_term(fills: &mut Fills, p: &Term, t: &FTerm) -> Result<bool, AllocError>
    ensures { IfOk result (λ told. Tells (fills_of fills.old) (fills_of fills.new)
        (plain.term_of p.now) (term_of t.now) told) }
{
    match p {
        Term::Bound(n) => match_variable(fills, *n, t),
        Term::Param(_) => Ok(false),
        Term::App(f, ps) => match t {
            FTerm::App(g, us) if *f == *g => match_terms(fills, ps, us),
            FTerm::Bound(_) | FTerm::Meta(_) | FTerm::Skolem(..) | FTerm::App(..) => Ok(false),
        },
    }
}

#[cycle(matching)]
fn match_terms(fills: &mut Fills, ps: &Terms, us: &FTerms) -> Result<bool, AllocError>
    ensures { IfOk result (λ told. TellsAll (fills_of fills.old) (fills_of fills.new)
        (plain.terms_of ps.now) (terms_of us.now) told) }
{
    let ps = ps.get().as_slice();
    let us = us.get().as_slice();
    if ps.len() != us.len() {
        return Ok(false);
    }
    for i in 0..ps.len() {
        if !match_term(fills, &ps[i], &us[i])? {
            return Ok(false);
        }
    }
    Ok(true)
}
