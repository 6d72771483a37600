//! Two rewritings: of a negated atom by a left side, and of an atom by a right side.

ghost use Rattle.std.specs.Prelude.{◌≡◌, length, IfOk};

use crate::{Expanded, expand};
use containers::{Items, Shared};
use fol_core::{Term, Terms};
use gs3_rules::Step;
use std::alloc::{AllocError, Global};

/// A list of no terms.
fn nothing(alloc: Global) -> Result<Terms, AllocError>
    ensures { IfOk result (λ ts. length ts ≡ 0) }
{
    Shared::new(alloc, Items::new(alloc))
}

/// A list of one constant, of that function symbol.
fn constant(alloc: Global, symbol: u32) -> Result<Terms, AllocError>
    ensures { IfOk result (λ ts. length ts ≡ 1) }
{
    let mut terms = Items::new(alloc);
    terms.push(Term::App(symbol, nothing(alloc)?))?;
    Shared::new(alloc, terms)
}

fn closes(step: &Step, i: u32, j: u32) -> bool {
    match step {
        Step::Close { atom, negated } => *atom == i && *negated == j,
        _ => false,
    }
}

fn is_gamma(step: &Step, i: u32) -> bool {
    match step {
        Step::Gamma { place, .. } => *place == i,
        _ => false,
    }
}

fn is_beta(step: &Step, i: u32) -> bool {
    match step {
        Step::Beta { place } => *place == i,
        _ => false,
    }
}

fn begins(expanded: &Expanded, axiom: u32, split: u32) -> bool {
    match expanded.before.as_slice() {
        [gamma, beta] => is_gamma(gamma, axiom) && is_beta(beta, split),
        _ => false,
    }
}

/// `~s(a)` at place 3 is rewritten by `![X]:(s(X)<=>F)` at place 0: the left premise closes with `s(a)` at place 5.
#[test]
fn rewrites_a_negated_atom(rt: HostRuntime) -> Result<(), AllocError> {
    let alloc = rt.alloc();
    let terms = constant(alloc, 0)?;
    let expanded = expand(alloc, 4, 0, 3, false, true, &terms)?;
    assert!(rt; begins(&expanded, 0, 4));
    assert!(rt; closes(&expanded.close, 5, 3));
    assert!(rt; expanded.result_place == 6);
    assert!(rt; expanded.close_first);
    Ok(())
}

/// `r` at place 1 is rewritten by `F<=>r` at place 0: the right premise closes with `~r` at place 4.
#[test]
fn rewrites_an_atom_by_a_right_side(rt: HostRuntime) -> Result<(), AllocError> {
    let alloc = rt.alloc();
    let expanded = expand(alloc, 3, 0, 1, true, false, &nothing(alloc)?)?;
    assert!(rt; closes(&expanded.close, 1, 4));
    assert!(rt; expanded.result_place == 3);
    assert!(rt; !expanded.close_first);
    Ok(())
}
