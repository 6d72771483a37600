//! Following bindings to the head of a term, and the occurs check.

ghost use Rattle.std.specs.Prelude.{◌≡◌, ◌↔◌, IsTrue, IfOk, OnOk, true};
ghost use Rattle.std.specs.HashSet.{contains, Updates};
ghost use Rattle.free_terms.specs.Free as free;
ghost use Rattle.free_terms.specs.View.{name_of, term_of, terms_of};
ghost use Rattle.unify.specs.Index.{is_same};
ghost use Rattle.unify.specs.Offers.{IsOffer};
ghost use Rattle.unify.specs.View.{offer_of};
ghost use Rattle.unify.specs.Occurs.{AllSettled, AllSettledInSome, Settled, StandsInNone, TellsIn, TellsInSome};
ghost use Rattle.unify.specs.Work.{IsHead};

use crate::bindings::Bindings;
use crate::subst::Subst;
use free_terms::{FTerm, FTerms, Name};
use std::alloc::{AllocError, Global};
use std::collections::HashSet;

/// Whether the term is that metavariable.
pub(crate) fn is_metavar(t: &FTerm, x: Name) -> bool
    ensures { IsTrue result ↔ (term_of t.now ≡ free.metavar (name_of x)) }
{
    match t {
        FTerm::Meta(y) => *y == x,
        FTerm::Bound(_) | FTerm::Skolem(..) | FTerm::App(..) => false,
    }
}

/// The term that the bindings lead to from `t`: one that is no metavariable, or one that is unbound.
pub(crate) fn head<'a>(s: &'a Bindings, t: &'a FTerm) -> &'a FTerm
    requires { IsOffer (offer_of s.now) }
    ensures { IsHead (offer_of s.now) (term_of t.now) (term_of result.now) }
{
    let mut at = t;
    let mut left = s.len();
    while let FTerm::Meta(x) = at {
        match s.value(*x) {
            Some(v) => {
                at = v;
                left -= 1;
            }
            None => return at,
        }
    }
    at
}

/// The term that the offer's bindings lead to from `t`: one that is no metavariable, or one that is
/// unbound. It takes no memory.
pub fn lead<'a>(s: &'a Subst, t: &'a FTerm) -> &'a FTerm
    ensures { IsHead (offer_of s.now) (term_of t.now) (term_of result.now) }
{
    head(s.bindings(), t)
}

/// Whether the metavariable stands in the term with the bindings applied. It goes through the term of
/// each binding at most once.
pub(crate) fn occurs(alloc: Global, s: &Bindings, x: Name, t: &FTerm) -> Result<bool, AllocError>
    requires { IsOffer (offer_of s.now) }
    ensures { IfOk result (TellsIn (offer_of s.now) (name_of x) (term_of t.now)) }
{
    let mut done = HashSet::new(alloc);
    occurs_in(s, s.len(), &x, t, &mut done)
}

/// The same along chains of at most `m` bindings, where the metavariable stands in no value of those that
/// are done with.
#[cycle(occurs)]
fn occurs_in(
    s: &Bindings,
    m: usize,
    x: &Name,
    t: &FTerm,
    done: &mut HashSet<Name>,
) -> Result<bool, AllocError>
    requires offer { IsOffer (offer_of s.now) }
    requires settled { AllSettled m (offer_of s.now) (term_of t.now) }
    requires done { StandsInNone (offer_of s.now) (name_of x.now) done.old }
    ensures found { IfOk result (TellsIn (offer_of s.now) (name_of x.now) (term_of t.now)) }
    ensures done { IfOk result (λ _. StandsInNone (offer_of s.now) (name_of x.now) done.new) }
{
    match t {
        FTerm::Bound(_) => Ok(false),
        FTerm::Meta(y) => occurs_in_value(s, m, x, y, done),
        FTerm::Skolem(_, us) | FTerm::App(_, us) => occurs_in_some(s, m, x, us, done),
    }
}

#[cycle(occurs)]
fn occurs_in_value(
    s: &Bindings,
    m: usize,
    x: &Name,
    y: &Name,
    done: &mut HashSet<Name>,
) -> Result<bool, AllocError>
    requires offer { IsOffer (offer_of s.now) }
    requires settled { Settled m (offer_of s.now) (name_of y.now) }
    requires done { StandsInNone (offer_of s.now) (name_of x.now) done.old }
    ensures found { IfOk result (TellsIn (offer_of s.now) (name_of x.now) (free.metavar (name_of y.now))) }
    ensures done { IfOk result (λ _. StandsInNone (offer_of s.now) (name_of x.now) done.new) }
{
    if is_noted(done, y) {
        return Ok(false);
    }
    match s.value(*y) {
        Some(v) => {
            let found = occurs_in(s, m - 1, x, v, done)?;
            if !found {
                note(done, y)?;
            }
            Ok(found)
        }
        None => Ok(*x == *y),
    }
}

#[cycle(occurs)]
fn occurs_in_some(
    s: &Bindings,
    m: usize,
    x: &Name,
    us: &FTerms,
    done: &mut HashSet<Name>,
) -> Result<bool, AllocError>
    requires offer { IsOffer (offer_of s.now) }
    requires settled { AllSettledInSome m (offer_of s.now) (terms_of us.now) }
    requires done { StandsInNone (offer_of s.now) (name_of x.now) done.old }
    ensures found { IfOk result (TellsInSome (offer_of s.now) (name_of x.now) (terms_of us.now)) }
    ensures done { IfOk result (λ _. StandsInNone (offer_of s.now) (name_of x.now) done.new) }
{
    for u in us.get().as_slice() {
        if occurs_in(s, m, x, u, done)? {
            return Ok(true);
        }
    }
    Ok(false)
}

/// Whether the name is among those noted. Apart from the walk, so that the walk takes less stack.
#[inline(never)]
fn is_noted(done: &HashSet<Name>, y: &Name) -> bool
    ensures { result ≡ contains is_same done.now y.now }
{
    done.contains(y)
}

/// Notes the name. Apart from the walk, so that the walk takes less stack.
#[inline(never)]
fn note(done: &mut HashSet<Name>, y: &Name) -> Result<(), AllocError>
    ensures { OnOk result (Updates is_same done.old done.new y.now true) }
{
    done.insert(*y)?;
    Ok(())
}
