//! Tests of each public call.

ghost use Rattle.std.specs.Prelude.{◌≡◌, IfOk, length};

use crate::{
    Lengths, Subst, binding, copy, empty, entails, equates, lead, measure, no_extents, resolve,
    same, unify, value_of,
};
use containers::{Items, Shared};
use free_terms::{FTerm, FTerms, Name};
use std::alloc::{AllocError, Global};
use std::collections::HashMap;

const X: Name = Name {
    segment: 1,
    count: 1,
};

const Y: Name = Name {
    segment: 1,
    count: 2,
};

fn one(alloc: Global, t: FTerm) -> Result<FTerms, AllocError>
    ensures { IfOk result (λ ts. length ts ≡ 1) }
{
    let mut ts = Items::new(alloc);
    ts.push(t)?;
    Shared::new(alloc, ts)
}

fn constant(alloc: Global, symbol: u32) -> Result<FTerm, AllocError> {
    Ok(FTerm::App(symbol, Shared::new(alloc, Items::new(alloc))?))
}

fn applied(alloc: Global, symbol: u32, t: FTerm) -> Result<FTerm, AllocError> {
    Ok(FTerm::App(symbol, one(alloc, t)?))
}

/// A most general offer that makes the two terms one.
fn made_one(
    alloc: Global,
    given: &Subst,
    left: FTerm,
    right: FTerm,
) -> Result<Option<Subst>, AllocError> {
    let left = one(alloc, left)?;
    let right = one(alloc, right)?;
    unify(alloc, given, &left, &right)
}

/// The offer that binds the metavariable to the term.
fn bound(alloc: Global, x: Name, t: FTerm) -> Result<Subst, AllocError> {
    let found = made_one(alloc, &empty(alloc), FTerm::Meta(x), t)?;
    found.ok_or(AllocError)
}

#[test]
fn refuses_a_term_that_holds_the_metavariable(rt: HostRuntime) -> Result<(), AllocError> {
    let alloc = rt.alloc();
    let held = applied(alloc, 0, FTerm::Meta(X))?;
    let found = made_one(alloc, &empty(alloc), FTerm::Meta(X), held)?;
    assert!(rt; found.is_none());
    Ok(())
}

#[test]
fn refuses_a_chain_into_itself(rt: HostRuntime) -> Result<(), AllocError> {
    let alloc = rt.alloc();
    let held = applied(alloc, 0, FTerm::Meta(Y))?;
    let given = bound(alloc, X, held)?;
    let found = made_one(alloc, &given, FTerm::Meta(Y), FTerm::Meta(X))?;
    assert!(rt; found.is_none());
    Ok(())
}

#[test]
fn refuses_another_constant(rt: HostRuntime) -> Result<(), AllocError> {
    let alloc = rt.alloc();
    let given = bound(alloc, X, constant(alloc, 1)?)?;
    let found = made_one(alloc, &given, FTerm::Meta(X), constant(alloc, 2)?)?;
    assert!(rt; found.is_none());
    Ok(())
}

/// `{X = f(Y), Y = a}`
fn two_bindings(alloc: Global) -> Result<Subst, AllocError> {
    let held = applied(alloc, 0, FTerm::Meta(Y))?;
    let given = bound(alloc, X, held)?;
    let found = made_one(alloc, &given, FTerm::Meta(Y), constant(alloc, 1)?)?;
    found.ok_or(AllocError)
}

#[test]
fn resolves_a_chain(rt: HostRuntime) -> Result<(), AllocError> {
    let alloc = rt.alloc();
    let s = two_bindings(alloc)?;
    let resolved = one(alloc, resolve(alloc, &s, &FTerm::Meta(X))?)?;
    let a = constant(alloc, 1)?;
    let wanted = one(alloc, applied(alloc, 0, a)?)?;
    assert!(rt; equates(&empty(alloc), &resolved, &wanted));
    Ok(())
}

#[test]
fn copies_and_follows(rt: HostRuntime) -> Result<(), AllocError> {
    let alloc = rt.alloc();
    let s = two_bindings(alloc)?;
    let other = copy(alloc, &s)?;
    assert!(rt; same(&s, &other));
    assert!(rt; matches!(lead(&s, &FTerm::Meta(X)), FTerm::App(0, _)));
    Ok(())
}

#[test]
fn entails_what_it_holds(rt: HostRuntime) -> Result<(), AllocError> {
    let alloc = rt.alloc();
    let s = two_bindings(alloc)?;
    let less = bound(alloc, Y, constant(alloc, 1)?)?;
    assert!(rt; entails(&s, &less));
    assert!(rt; !entails(&less, &s));
    Ok(())
}

#[test]
fn keeps_the_given_bindings(rt: HostRuntime) -> Result<(), AllocError> {
    let alloc = rt.alloc();
    let given = bound(alloc, X, constant(alloc, 1)?)?;
    let found = unify(
        alloc,
        &given,
        &Shared::new(alloc, Items::new(alloc))?,
        &Shared::new(alloc, Items::new(alloc))?,
    )?;
    let Some(found) = found else {
        return Err(AllocError);
    };
    assert!(rt; matches!(binding(&found, 0), Some(b) if b.name == X));
    assert!(rt; binding(&found, 1).is_none());
    assert!(rt; value_of(&found, X).is_some());
    assert!(rt; value_of(&found, Y).is_none());
    Ok(())
}

/// `f(X)` where X is bound to `ggg(Y)`, and Y is written with two bytes: `f(ggg(#0))`.
#[test]
fn measures_a_value(rt: HostRuntime) -> Result<(), AllocError> {
    let alloc = rt.alloc();
    let s = bound(alloc, X, applied(alloc, 1, FTerm::Meta(Y))?)?;
    let lengths = Lengths {
        symbols: vec![in alloc; 1, 3]?,
        skolems: HashMap::new(alloc),
        other: 2,
    };
    let held = applied(alloc, 0, FTerm::Meta(X))?;
    let mut noted = no_extents(alloc);
    let extent = measure(&s, &lengths, &held, 100, &mut noted)?;
    let length = extent.length;
    let depth = extent.depth;
    assert!(rt; length == 10 && depth == 3);
    Ok(())
}
