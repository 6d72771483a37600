//! Walks of small problems.

use crate::report_open;
use containers::Shared;
use fof_parse::read_problem;
use rewrite_rules::rules_of;
use std::alloc::{AllocError, Global};
use tab_tree::{OpenAnswer, Round};

/// What is answered of the text at the depth.
fn answer(alloc: Global, text: &str, depth: u32) -> Result<OpenAnswer, AllocError> {
    let Ok(problem) = read_problem(alloc, text.as_bytes()) else {
        return Err(AllocError);
    };
    let rules = Shared::new(alloc, rules_of(alloc, &problem, false)?)?;
    report_open(
        alloc,
        &Round::new(Shared::new(alloc, problem)?, rules, depth),
    )
}

#[test]
fn each_leaf_closes_alone(rt: HostRuntime) -> Result<(), AllocError> {
    let text = "fof(a,axiom,p(a)).\nfof(b,axiom,q(b)).\nfof(c,axiom,![X]:(~p(X)|~q(X))).\n";
    assert!(rt; answer(rt.alloc(), text, 1)? == OpenAnswer::Conflict);
    assert!(rt; answer(rt.alloc(), text, 8)? == OpenAnswer::Conflict);
    Ok(())
}

#[test]
fn no_formula_is_an_open_leaf(rt: HostRuntime) -> Result<(), AllocError> {
    assert!(rt; answer(rt.alloc(), "", 8)? == OpenAnswer::Branch(1));
    Ok(())
}

#[test]
fn no_offer_equates_across_skolem_terms(rt: HostRuntime) -> Result<(), AllocError> {
    let text = "fof(a,axiom,![X]:?[Y]:r(X,Y)).\nfof(c,conjecture,?[Y]:![X]:r(X,Y)).\n";
    assert!(rt; answer(rt.alloc(), text, 8)? == OpenAnswer::Branch(1));
    Ok(())
}

#[test]
fn the_right_leaf_is_open(rt: HostRuntime) -> Result<(), AllocError> {
    let text = "fof(a,axiom,(p|q)).\nfof(c,conjecture,p).\n";
    assert!(rt; answer(rt.alloc(), text, 8)? == OpenAnswer::Branch(3));
    Ok(())
}
