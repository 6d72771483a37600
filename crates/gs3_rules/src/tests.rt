//! Steps on a small list.

use crate::{ApplyError, Premises, Step, apply};
use containers::{Items, Shared};
use fol_core::{Formula, Formulas, Term, same};
use std::alloc::{AllocError, Global};

fn atom(alloc: Global, symbol: u32) -> Result<Formula, AllocError> {
    let none = Shared::new(alloc, Items::new(alloc))?;
    Ok(Formula::Atom(symbol, none))
}

fn negated(alloc: Global, formula: Formula) -> Result<Formula, AllocError> {
    Ok(Formula::Not(Shared::new(alloc, formula)?))
}

/// `p`, `p => q` and `~q`.
fn start(alloc: Global) -> Result<Formulas, AllocError> {
    let left = Shared::new(alloc, atom(alloc, 0)?)?;
    let right = Shared::new(alloc, atom(alloc, 1)?)?;
    let last = negated(alloc, atom(alloc, 1)?)?;
    let mut list = Items::new(alloc);
    list.push(atom(alloc, 0)?)?;
    list.push(Formula::Imp(left, right))?;
    list.push(last)?;
    Ok(list)
}

/// Whether the list is this one formula.
fn is_one(list: &Formulas, formula: &Formula) -> bool {
    match list.as_slice() {
        [only] => same(only, formula),
        _ => false,
    }
}

fn splits_into(premises: &Premises, left: &Formula, right: &Formula) -> bool {
    match premises {
        Premises::Two(first, second) => is_one(first, left) && is_one(second, right),
        Premises::Zero | Premises::One(_) => false,
    }
}

#[test]
fn splits_an_implication(rt: HostRuntime) -> Result<(), ApplyError> {
    let alloc = rt.alloc();
    let list = start(alloc)?;
    let not_p = negated(alloc, atom(alloc, 0)?)?;
    let q = atom(alloc, 1)?;
    let premises = apply(alloc, &list, &Step::Beta { place: 1 })?;
    assert!(rt; splits_into(&premises, &not_p, &q));
    Ok(())
}

#[test]
fn refuses_steps_of_another_form(rt: HostRuntime) -> Result<(), ApplyError> {
    let alloc = rt.alloc();
    let list = start(alloc)?;
    let steps = [
        Step::Close {
            atom: 0,
            negated: 2,
        },
        Step::Close {
            atom: 2,
            negated: 0,
        },
        Step::FalseAt { place: 0 },
        Step::NotTrue { place: 2 },
        Step::Alpha { place: 1 },
        Step::Beta { place: 3 },
        Step::Delta { place: 1, param: 1 },
        Step::Gamma {
            place: 1,
            term: Term::Param(0),
        },
    ];
    for step in &steps {
        match apply(alloc, &list, step) {
            Err(ApplyError::Wrong) => {}
            Ok(_) | Err(ApplyError::OutOfMemory) => assert!(rt; false),
        }
    }
    Ok(())
}
