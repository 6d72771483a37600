//! Closed terms under the offer.

ghost use Rattle.std.specs.Prelude.{◌≡◌, ◌++◌, ◌∷◌, [], Some, IfOk, OnOk};
ghost use Rattle.std.specs.Option.{option_copied};
ghost use Rattle.std.specs.HashMap.{get, Updates};
ghost use Rattle.fol_core.specs.View.{term_of, terms_of};
ghost use Rattle.free_terms.specs.Free as spec;
ghost use Rattle.free_terms.specs.View as free;
ghost use Rattle.unify.specs.Index.{is_same};
ghost use Rattle.unify.specs.Offers.{resolved_all};
ghost use Rattle.unify.specs.View.{offer_of};
ghost use Rattle.translation.specs.Translation.{closed_all, term_under};
ghost use Rattle.deskolem.specs.Numbers.{AreValues, AreOfAny};
ghost use Rattle.deskolem.specs.View.{names_of};

use crate::parameters::Parameters;
use containers::{Items, Shared};
use fol_core::{Term, Terms};
use free_terms::{FTerm, FTerms, Name};
use std::alloc::{AllocError, Global};
use std::collections::HashMap;
use unify::{Subst, lead};

/// The closed values of metavariables under one offer, as far as they were built.
pub(crate) type Values = HashMap<Name, Term>;

/// No values yet, for any offer.
pub(crate) fn no_values(alloc: Global) -> Values
    ensures { AreOfAny result }
{
    HashMap::new(alloc)
}

/// The metavariable as a term.
pub(crate) fn metavariable(name: &Name) -> FTerm
    ensures { free.term_of result ≡ spec.metavar (free.name_of name.now) }
{
    FTerm::Meta(*name)
}

/// The closed term that the term is under the offer: a Skolem term is its symbol's parameter, and an unbound
/// metavariable is #0. The value of a metavariable is built once for all calls that are given the same `done`, and
/// shared. It takes stack for each level of the closed term.
#[cycle(grounded)]
pub(crate) fn grounded(
    alloc: Global,
    s: &Subst,
    names: &Parameters,
    t: &FTerm,
    done: &mut Values,
) -> Result<Term, AllocError>
    requires { AreValues (offer_of s.now) (names_of names.now) done.old }
    ensures term { IfOk result
        (λ u. term_of u ≡ term_under (offer_of s.now) (names_of names.now) (free.term_of t.now)) }
    ensures done { IfOk result (λ _. AreValues (offer_of s.now) (names_of names.now) done.new) }
{
    match t {
        FTerm::Bound(n) => Ok(Term::Bound(*n)),
        FTerm::Meta(x) => value(alloc, s, names, x, t, done),
        FTerm::Skolem(x, _) => Ok(Term::Param(names.number(x))),
        FTerm::App(f, us) => Ok(Term::App(*f, all_grounded(alloc, s, names, us, done)?)),
    }
}

/// The closed value of the metavariable, which `t` is.
#[cycle(grounded)]
fn value(
    alloc: Global,
    s: &Subst,
    names: &Parameters,
    x: &Name,
    t: &FTerm,
    done: &mut Values,
) -> Result<Term, AllocError>
    requires metavariable { free.term_of t.now ≡ spec.metavar (free.name_of x.now) }
    requires done { AreValues (offer_of s.now) (names_of names.now) done.old }
    ensures term { IfOk result
        (λ u. term_of u ≡ term_under (offer_of s.now) (names_of names.now) (free.term_of t.now)) }
    ensures done { IfOk result (λ _. AreValues (offer_of s.now) (names_of names.now) done.new) }
{
    if let Some(u) = noted(done, x) {
        return u.copy();
    }
    let u = match lead(s, t) {
        FTerm::Bound(n) => Term::Bound(*n),
        FTerm::Meta(_) => Term::Param(0),
        FTerm::Skolem(y, _) => Term::Param(names.number(y)),
        FTerm::App(f, us) => Term::App(*f, all_grounded(alloc, s, names, us, done)?),
    };
    note(done, x, u.copy()?)?;
    Ok(u)
}

#[cycle(grounded)]
fn all_grounded(
    alloc: Global,
    s: &Subst,
    names: &Parameters,
    us: &FTerms,
    done: &mut Values,
) -> Result<Terms, AllocError>
    requires { AreValues (offer_of s.now) (names_of names.now) done.old }
    ensures terms { IfOk result (λ vs. terms_of vs
        ≡ closed_all (names_of names.now) (resolved_all (offer_of s.now) (free.terms_of us.now))) }
    ensures done { IfOk result (λ _. AreValues (offer_of s.now) (names_of names.now) done.new) }
{
    let mut out = Items::new(alloc);
    for u in us.get().as_slice() {
        let v = grounded(alloc, s, names, u, done)?;
        add(&mut out, v)?;
    }
    let terms = shared(alloc, out)?;
    Ok(terms)
}

/// Adds the term. Apart from the walk, so that the walk takes less stack.
#[inline(never)]
fn add(out: &mut Items<Term>, t: Term) -> Result<(), AllocError>
    ensures { IfOk result (λ _. out.new ≡ out.old ++ t ∷ []) }
{
    out.push(t)?;
    Ok(())
}

/// The list, to be shared. Apart from the walk, so that the walk takes less stack.
#[inline(never)]
fn shared(alloc: Global, out: Items<Term>) -> Result<Terms, AllocError>
    ensures { IfOk result (λ us. us ≡ out) }
{
    Shared::new(alloc, out)
}

/// What is noted of the name.
#[inline(never)]
fn noted<'a>(done: &'a Values, x: &Name) -> Option<&'a Term>
    ensures { option_copied result ≡ get is_same done.now x.now }
{
    done.get(x)
}

/// Notes the value. Apart from the walk, so that the walk takes less stack.
#[inline(never)]
fn note(done: &mut Values, x: &Name, t: Term) -> Result<(), AllocError>
    ensures { OnOk result (Updates is_same done.old done.new x.now (Some t)) }
{
    done.insert(*x, t)?;
    Ok(())
}
