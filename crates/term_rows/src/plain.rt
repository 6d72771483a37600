//! Instances, parameters and equality of formulas.
use containers::{Items, Shared};
use fol_core::{Formula, Term, instantiate, is_closed, occurs_param, param_bound, same};
use std::alloc::{AllocError, Global};

/// The atom 0 of one argument.
fn atom(alloc: Global, argument: Term) -> Result<Formula, AllocError> {
    let mut arguments = Items::new(alloc);
    arguments.push(argument)?;
    Ok(Formula::Atom(0, Shared::new(alloc, arguments)?))
}

/// `((p(inner) & $true) & $true) & ..`, this many levels deep to the left.
fn chain(alloc: Global, inner: Term, levels: u32) -> Result<Formula, AllocError> {
    let mut formula = atom(alloc, inner)?;
    for _ in 0..levels {
        let left = Shared::new(alloc, formula)?;
        formula = Formula::And(left, Shared::new(alloc, Formula::Verum)?);
    }
    Ok(formula)
}

/// A formula 200,000 levels deep to the left: its instance, its parameters, a copy.
fn tell_deep(rt: &HostRuntime) -> anyhow::Result<()> {
    let body = chain(rt.alloc(), Term::Bound(0), 200_000)?;
    let wanted = chain(rt.alloc(), Term::Param(7), 200_000)?;
    let instance = instantiate(rt.alloc(), &body, &Term::Param(7))?;
    let copy = body.copy()?;
    let is_closed = is_closed(&body);
    println!(rt; "the deep body is closed: {is_closed}")?;
    let is_instance = same(&instance, &wanted);
    println!(rt; "its instance is as wanted: {is_instance}")?;
    let occurs = occurs_param(&instance, 7);
    let bound = param_bound(&instance);
    println!(rt; "#7 stands in the instance: {occurs}, and its parameters are below {bound}")?;
    let is_body = same(&copy, &body);
    println!(rt; "a copy is the body: {is_body}")?;
    Ok(())
}

/// The body `? [X] : p(Y)` with `#3` for `Y`: the variable counts the quantifier between.
fn tell_below_quantifier(rt: &HostRuntime) -> anyhow::Result<()> {
    let inner = atom(rt.alloc(), Term::Bound(1))?;
    let body = Formula::Ex(Shared::new(rt.alloc(), inner)?);
    let opened = atom(rt.alloc(), Term::Param(3))?;
    let wanted = Formula::Ex(Shared::new(rt.alloc(), opened)?);
    let instance = instantiate(rt.alloc(), &body, &Term::Param(3))?;
    let is_instance = same(&instance, &wanted);
    println!(rt; "an instance below a quantifier is as wanted: {is_instance}")?;
    Ok(())
}

pub fn tell_all(rt: &HostRuntime) -> anyhow::Result<()> {
    tell_deep(rt)?;
    tell_below_quantifier(rt)
}
