//! Tests of each public call.

ghost use Rattle.std.specs.Prelude.{◌<◌, ◌+◌, All, IfOk};

use crate::{LitIndex, apart};
use containers::{Items, Shared};
use free_terms::{FTerm, FTerms, Name};
use std::alloc::{AllocError, Global};

/// The index with a literal more, where all literals stand before that place.
fn with(
    mut index: LitIndex,
    place: u32,
    negated: bool,
    predicate: u32,
) -> Result<LitIndex, AllocError>
    requires { All (λ o. o.place < place) index }
    ensures { IfOk result (λ more. All (λ o. o.place < place + 1) more) }
{
    index.add(place, negated, predicate)?;
    Ok(index)
}

#[test]
fn forks_share_what_was_held(rt: HostRuntime) -> Result<(), AllocError> {
    let index = with(LitIndex::new(rt.alloc()), 1, false, 7)?;
    let index = with(with(index, 2, false, 7)?, 3, true, 8)?;
    let (left, right) = index.fork()?;
    let left = with(left, 4, false, 7)?;
    let right = with(right, 4, true, 7)?;
    assert_eq!(rt; left.opposites(true, 7)?.as_slice(), [1, 2, 4].as_slice());
    assert_eq!(rt; right.opposites(true, 7)?.as_slice(), [1, 2].as_slice());
    assert_eq!(rt; right.opposites(false, 7)?.as_slice(), [4].as_slice());
    Ok(())
}

/// The list of one term, a function of a term.
fn applied(alloc: Global, t: FTerm) -> Result<FTerms, AllocError> {
    let mut inner = Items::new(alloc);
    inner.push(t)?;
    let mut outer = Items::new(alloc);
    outer.push(FTerm::App(0, Shared::new(alloc, inner)?))?;
    Shared::new(alloc, outer)
}

fn constant(alloc: Global, symbol: u32) -> Result<FTerm, AllocError> {
    Ok(FTerm::App(symbol, Shared::new(alloc, Items::new(alloc))?))
}

#[test]
fn a_metavariable_tells_nothing_apart(rt: HostRuntime) -> Result<(), AllocError> {
    let alloc = rt.alloc();
    let x = FTerm::Meta(Name {
        segment: 1,
        count: 1,
    });
    let of_a = applied(alloc, constant(alloc, 1)?)?;
    let of_b = applied(alloc, constant(alloc, 2)?)?;
    let of_x = applied(alloc, x)?;
    assert!(rt; apart(&of_a, &of_b));
    assert!(rt; !apart(&of_x, &of_b));
    Ok(())
}
