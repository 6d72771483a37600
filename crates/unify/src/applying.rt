//! Terms with all bindings of an offer applied.

ghost use Rattle.std.specs.Prelude.{◌≡◌, ◌≤◌, ◌+◌, ◌++◌, ◌∷◌, [], IfOk};
ghost use Rattle.free_terms.specs.View.{name_of, term_of, terms_of};
ghost use Rattle.unify.specs.Nesting.{nesting, most_nested};
ghost use Rattle.unify.specs.Offers.{resolved, substitute, substitute_all, value_within};
ghost use Rattle.unify.specs.View.{offer_of};

use crate::bindings::Bindings;
use crate::subst::Subst;
use containers::{Items, Shared};
use free_terms::{FTerm, FTerms, Name};
use std::alloc::{AllocError, Global};

/// The term with all bindings applied. It may be larger than all bindings together, by a power of two:
/// what a metavariable stands for is written out at each place. It nests at most `MOST_NESTED` deeper than
/// the term, and takes stack for each level, as letting go of it does: some 4 MB at that depth, so it is for the
/// main thread.
pub fn resolve(alloc: Global, s: &Subst, t: &FTerm) -> Result<FTerm, AllocError>
    ensures value { IfOk result (λ r. term_of r ≡ resolved (offer_of s.now) (term_of t.now)) }
    ensures nested { IfOk result (λ r. nesting (term_of r) ≤ nesting (term_of t.now) + most_nested) }
{
    let s = s.bindings();
    resolved_within(alloc, s, s.len(), t)
}

/// The term with the bindings applied, along chains of at most `m` of them.
#[cycle(resolve)]
fn resolved_within(alloc: Global, s: &Bindings, m: usize, term: &FTerm) -> Result<FTerm, AllocError>
    ensures { IfOk result (λ r. term_of r ≡ substitute (value_within m (offer_of s.now)) (term_of term.now)) }
{
    match term {
        FTerm::Bound(n) => Ok(FTerm::Bound(*n)),
        FTerm::Meta(x) => metavar_within(alloc, s, m, x),
        FTerm::Skolem(x, us) => Ok(FTerm::Skolem(*x, all_within(alloc, s, m, us)?)),
        FTerm::App(f, us) => Ok(FTerm::App(*f, all_within(alloc, s, m, us)?)),
    }
}

#[cycle(resolve)]
fn metavar_within(alloc: Global, s: &Bindings, m: usize, x: &Name) -> Result<FTerm, AllocError>
    ensures { IfOk result (λ r. term_of r ≡ value_within m (offer_of s.now) (name_of x.now)) }
{
    if m == 0 {
        return Ok(FTerm::Meta(*x));
    }
    match s.value(*x) {
        Some(v) => resolved_within(alloc, s, m - 1, v),
        None => Ok(FTerm::Meta(*x)),
    }
}

#[cycle(resolve)]
fn all_within(alloc: Global, s: &Bindings, m: usize, us: &FTerms) -> Result<FTerms, AllocError>
    ensures { IfOk result (λ rs. terms_of rs ≡ substitute_all (value_within m (offer_of s.now)) (terms_of us.now)) }
{
    let mut out = Items::new(alloc);
    for u in us.get().as_slice() {
        let r = resolved_within(alloc, s, m, u)?;
        add(&mut out, r)?;
    }
    shared(alloc, out)
}

/// Adds the term. Apart from the walk, so that the walk takes less stack.
#[inline(never)]
fn add(out: &mut Items<FTerm>, t: FTerm) -> Result<(), AllocError>
    ensures { IfOk result (λ _. out.new ≡ out.old ++ t ∷ []) }
{
    out.push(t)?;
    Ok(())
}

/// The list, to be shared. Apart from the walk, so that the walk takes less stack.
#[inline(never)]
fn shared(alloc: Global, out: Items<FTerm>) -> Result<FTerms, AllocError>
    ensures { IfOk result (λ us. us ≡ out) }
{
    Shared::new(alloc, out)
}
