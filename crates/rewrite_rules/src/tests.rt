//! The rules of a small problem, and what they make of literals.

use crate::{Rules, is_rule_axiom, rewrite, rules_of};
use containers::{Items, Shared};
use fof_parse::read_problem;
use free_terms::{FFormula, FTerm, Name};
use std::alloc::{AllocError, Global};
use std::test::Fail;

/// `s`, `p` and `q` are the predicate symbols 0, 1 and 2. The last axiom is no equivalence.
const PROBLEM: &[u8] = b"fof(a,axiom,![X]:(s(X)<=>p(X))).fof(b,axiom,![X]:((p(X)&s(X))<=>q(X))).
fof(c,axiom,![X]:(s(X)<=>q(X))).fof(d,axiom,![X]:(p(X)=>s(X))).";

fn rules(alloc: Global, on: bool) -> Result<Rules, Fail> {
    let problem = read_problem(alloc, PROBLEM)?;
    Ok(rules_of(alloc, &problem, on)?)
}

/// The predicate symbol's atom of a metavariable.
fn atom(alloc: Global, predicate: u32) -> Result<FFormula, AllocError> {
    let mut args = Items::new(alloc);
    let name = Name {
        segment: 1,
        count: 1,
    };
    args.push(FTerm::Meta(name))?;
    Ok(FFormula::Atom(predicate, Shared::new(alloc, args)?))
}

fn negated_atom(alloc: Global, predicate: u32) -> Result<FFormula, AllocError> {
    let atom = atom(alloc, predicate)?;
    Ok(FFormula::Not(Shared::new(alloc, atom)?))
}

fn is_negation(f: &FFormula) -> bool {
    match f {
        FFormula::Not(_) => true,
        _ => false,
    }
}

/// The place of the axiom that rewrites the literal, and whether the result is a negation.
fn outcome(
    alloc: Global,
    rules: &Rules,
    literal: &FFormula,
) -> Result<Option<(u32, bool)>, AllocError> {
    match rewrite(alloc, rules, literal)? {
        Some(rewritten) => Ok(Some((rewritten.axiom, is_negation(&rewritten.result)))),
        None => Ok(None),
    }
}

fn outcome_of_atom(
    alloc: Global,
    rules: &Rules,
    predicate: u32,
) -> Result<Option<(u32, bool)>, AllocError> {
    let literal = atom(alloc, predicate)?;
    outcome(alloc, rules, &literal)
}

fn outcome_of_negated_atom(
    alloc: Global,
    rules: &Rules,
    predicate: u32,
) -> Result<Option<(u32, bool)>, AllocError> {
    let literal = negated_atom(alloc, predicate)?;
    outcome(alloc, rules, &literal)
}

#[test]
fn the_first_rule_of_the_predicate_rewrites(rt: HostRuntime) -> Result<(), Fail> {
    let alloc = rt.alloc();
    let rules = rules(alloc, true)?;
    let by_left = outcome_of_atom(alloc, &rules, 0)?;
    let by_right = outcome_of_negated_atom(alloc, &rules, 2)?;
    let by_none = outcome_of_atom(alloc, &rules, 1)?;
    let marked = is_rule_axiom(&rules, 2) && !is_rule_axiom(&rules, 3);
    assert!(rt;
        marked && by_left == Some((0, false)) && by_right == Some((1, true)) && by_none == None
    );
    Ok(())
}

#[test]
fn without_rewriting_there_is_no_rule(rt: HostRuntime) -> Result<(), Fail> {
    let alloc = rt.alloc();
    let rules = rules(alloc, false)?;
    let by_none = outcome_of_atom(alloc, &rules, 0)?;
    assert!(rt; by_none == None && !is_rule_axiom(&rules, 0));
    Ok(())
}
