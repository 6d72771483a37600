//! The least and the largest problem.

use crate::make_problem;
use std::alloc::AllocError;

#[test]
fn makes_the_least_and_the_largest(rt: HostRuntime) -> Result<(), AllocError> {
    let least = make_problem(rt.alloc(), 1)?;
    let text =
        b"fof(s,axiom,p0(a)).\nfof(r0,axiom,![X]:(p0(X)=>p1(X))).\nfof(g,conjecture,p1(a)).\n";
    assert!(rt; least.as_slice() == text.as_slice());
    let largest = make_problem(rt.alloc(), 100)?;
    assert!(rt; largest.len() == 3819);
    Ok(())
}
