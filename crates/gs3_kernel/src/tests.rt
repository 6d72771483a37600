//! Proofs by modus ponens, right and wrong.

use crate::{CheckError, check_steps};
use containers::{Items, Shared};
use fol_core::{Formula, Formulas};
use gs3_rules::{Step, Steps};
use std::alloc::{AllocError, Global};

fn atom(alloc: Global, symbol: u32) -> Result<Formula, AllocError> {
    let none = Shared::new(alloc, Items::new(alloc))?;
    Ok(Formula::Atom(symbol, none))
}

/// `p`, `p => q` and `~q`.
fn start(alloc: Global) -> Result<Formulas, AllocError> {
    let left = Shared::new(alloc, atom(alloc, 0)?)?;
    let right = Shared::new(alloc, atom(alloc, 1)?)?;
    let last = Shared::new(alloc, atom(alloc, 1)?)?;
    let mut list = Items::new(alloc);
    list.push(atom(alloc, 0)?)?;
    list.push(Formula::Imp(left, right))?;
    list.push(Formula::Not(last))?;
    Ok(list)
}

/// `beta 1`, and `close` at these pairs of places.
fn split_and_close(alloc: Global, closing: &[(u32, u32)]) -> Result<Steps, AllocError> {
    let mut steps = Items::new(alloc);
    steps.push(Step::Beta { place: 1 })?;
    for (atom, negated) in closing {
        steps.push(Step::Close {
            atom: *atom,
            negated: *negated,
        })?;
    }
    Ok(steps)
}

#[test]
fn checks_modus_ponens(rt: HostRuntime) -> Result<(), AllocError> {
    let alloc = rt.alloc();
    let rows: [(&[(u32, u32)], Result<(), CheckError>); 5] = [
        (&[(0, 3), (3, 2)], Ok(())),
        (&[(0, 3), (3, 1)], Err(CheckError::Wrong { step: 2 })),
        (&[(3, 0), (3, 2)], Err(CheckError::Wrong { step: 1 })),
        (&[(0, 3)], Err(CheckError::Wrong { step: 2 })),
        (
            &[(0, 3), (3, 2), (3, 2)],
            Err(CheckError::Wrong { step: 3 }),
        ),
    ];
    for (closing, wanted) in rows {
        let steps = split_and_close(alloc, closing)?;
        let list = start(alloc)?;
        assert!(rt; check_steps(alloc, list, &steps) == wanted);
    }
    Ok(())
}
