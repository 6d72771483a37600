//! Formulas with terms for the variables of stripped quantifiers.
ghost use Rattle.std.specs.Prelude.{◌≡◌, unwrap_or, IfOk};
ghost use Rattle.free_terms.specs.Free.{FreeTerms, filled_with, fill_term, fill_terms, fill_all, instance};
ghost use Rattle.free_terms.specs.Free.{HoldsNoBound};
ghost use Rattle.free_terms.specs.View.{term_of, terms_of, formula_of, fills_of};

use crate::fills::{Fill, Fills};
use crate::formula::FFormula;
use crate::term::{FTerm, FTerms};
use containers::{Items, Shared, with_next};
use fol_core::{Change, changed};
use std::alloc::{AllocError, Global};

/// The body of a quantifier, with the term for its variable.
pub fn fill(alloc: Global, body: &FFormula, term: &FTerm) -> Result<FFormula, AllocError>
    requires { HoldsNoBound (term_of term.now) }
    ensures { IfOk result (λ f. formula_of f ≡ instance (formula_of body.now) (term_of term.now)) }
{
    let mut fills = Items::new(alloc);
    fills.push(Fill::Given(term.copy()?))?;
    fill_all(alloc, body, &fills)
}

/// The formula that stripped quantifiers stood around, with the terms for their variables.
pub fn fill_all(alloc: Global, body: &FFormula, fills: &Fills) -> Result<FFormula, AllocError>
    ensures { IfOk result (λ f. formula_of f ≡ fill_all (fills_of fills.now) (formula_of body.now)) }
{
    match changed(alloc, body, 0, &Filling { fills })? {
        Some(instance) => Ok(instance),
        None => body.copy(),
    }
}

/// Terms for variables.
#[derive(Drop)]
struct Filling<'a> {
    fills: &'a Fills,
}

impl<'a> Change<FTerms> for Filling<'a> {
    ghost Plain = { FreeTerms };

    ghost plain = { terms_of };

    ghost image = { λ filling k us. fill_terms (fills_of filling.fills.now) k us };

    fn changed(
        &self,
        alloc: Global,
        args: &FTerms,
        level: u32,
    ) -> Result<Option<FTerms>, AllocError>
        ensures { IfOk result (λ new. terms_of (unwrap_or new args.now)
            ≡ fill_terms (fills_of self.now.fills.now) level (terms_of args.now)) }
    {
        filled_terms(alloc, args, level, self.fills)
    }
}

/// What stands for the variable `n` under `level` quantifiers of the formula. None says that it is the variable itself.
fn variable(n: u32, level: u32, fills: &Fills) -> Result<Option<FTerm>, AllocError>
    ensures { IfOk result (λ t. term_of (unwrap_or t (FTerm.Bound n)) ≡ filled_with (fills_of fills.now) level n) }
{
    if n < level {
        return Ok(None);
    }
    match fills.get((n - level) as usize) {
        Some(Fill::Given(t)) => Ok(Some(t.copy()?)),
        Some(Fill::Unused) => Ok(None),
        None => Ok(None),
    }
}

/// The term with its variables filled. None says that it is the term itself.
#[cycle(fill)]
fn filled_term(
    alloc: Global,
    t: &FTerm,
    level: u32,
    fills: &Fills,
) -> Result<Option<FTerm>, AllocError>
    ensures { IfOk result (λ r. term_of (unwrap_or r t.now) ≡ fill_term (fills_of fills.now) level (term_of t.now)) }
{
    match t {
        FTerm::Bound(n) => variable(*n, level, fills),
        FTerm::Meta(_) => Ok(None),
        FTerm::Skolem(x, us) => match filled_terms(alloc, us, level, fills)? {
            Some(us) => Ok(Some(FTerm::Skolem(*x, us))),
            None => Ok(None),
        },
        FTerm::App(f, us) => match filled_terms(alloc, us, level, fills)? {
            Some(us) => Ok(Some(FTerm::App(*f, us))),
            None => Ok(None),
        },
    }
}

/// The same of a list. None says that each term of it is unchanged.
#[cycle(fill)]
fn filled_terms(
    alloc: Global,
    us: &FTerms,
    level: u32,
    fills: &Fills,
) -> Result<Option<FTerms>, AllocError>
    ensures { IfOk result (λ rs. terms_of (unwrap_or rs us.now)
        ≡ fill_terms (fills_of fills.now) level (terms_of us.now)) }
{
    let us = us.get().as_slice();
    let mut out = None;
    for i in 0..us.len() {
        let u = filled_term(alloc, &us[i], level, fills)?;
        out = with_next(alloc, out, &us[..i], &us[i], u)?;
    }
    match out {
        Some(out) => Ok(Some(Shared::new(alloc, out)?)),
        None => Ok(None),
    }
}
