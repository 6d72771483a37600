//! Terms with metavariables: filling, lifting, one-sided matching.
use containers::{Items, Shared};
use fol_core::{Formula, Term, Terms};
use free_terms::{FFormula, FTerm, FTerms, Fill, Fills, Name, fill, fill_all, lift, match_into};
use std::alloc::{AllocError, Global};

const X: Name = Name {
    segment: 1,
    count: 1,
};

fn arguments(alloc: Global, t: FTerm) -> Result<FTerms, AllocError> {
    let mut ts = Items::new(alloc);
    ts.push(t)?;
    Shared::new(alloc, ts)
}

fn plain_arguments(alloc: Global, t: Term) -> Result<Terms, AllocError> {
    let mut ts = Items::new(alloc);
    ts.push(t)?;
    Shared::new(alloc, ts)
}

fn constant(alloc: Global, symbol: u32) -> Result<FTerm, AllocError> {
    Ok(FTerm::App(symbol, Shared::new(alloc, Items::new(alloc))?))
}

/// What a fill or a term is, in words.
fn term_kind(t: &FTerm) -> &'static str {
    match t {
        FTerm::Bound(_) => "a bound variable",
        FTerm::Meta(_) => "a metavariable",
        FTerm::Skolem(..) => "a Skolem term",
        FTerm::App(..) => "an application",
    }
}

fn first_fill(fills: &Option<Fills>) -> &'static str {
    match fills {
        None => "no match",
        Some(fills) => match fills.get(0) {
            Some(Fill::Given(t)) => term_kind(t),
            Some(Fill::Unused) => "left open",
            None => "no variable",
        },
    }
}

/// The kind of the first argument of the atom at the end of the left spine.
fn innermost(f: &FFormula) -> &'static str {
    let mut at = f;
    loop {
        match at {
            FFormula::Atom(_, args) => return args.get().get(0).map_or("none", |t| term_kind(t)),
            FFormula::Verum | FFormula::Falsum => return "none",
            FFormula::Not(a) | FFormula::All(a) | FFormula::Ex(a) => at = a.get(),
            FFormula::And(a, _) | FFormula::Or(a, _) => at = a.get(),
            FFormula::Imp(a, _) | FFormula::Iff(a, _) => at = a.get(),
        }
    }
}

fn tell_match(
    rt: &HostRuntime,
    what: &str,
    pattern: &Terms,
    target: &FTerms,
) -> anyhow::Result<()> {
    let fills = match_into(rt.alloc(), pattern, 1, target)?;
    let first = first_fill(&fills);
    println!(rt; "{what}: {first}")?;
    Ok(())
}

fn tell_matches(rt: &HostRuntime) -> anyhow::Result<()> {
    let alloc = rt.alloc();
    let variable = plain_arguments(alloc, Term::Bound(0))?;
    let metavariable = arguments(alloc, FTerm::Meta(X))?;
    tell_match(
        rt,
        "a variable against a metavariable",
        &variable,
        &metavariable,
    )?;
    let constant_pattern = Term::App(1, Shared::new(alloc, Items::new(alloc))?);
    let pattern = plain_arguments(alloc, constant_pattern)?;
    tell_match(
        rt,
        "a constant against a metavariable",
        &pattern,
        &metavariable,
    )?;
    let target = arguments(alloc, constant(alloc, 1)?)?;
    tell_match(rt, "a constant against itself", &pattern, &target)
}

/// One variable against two constants.
fn tell_twice(rt: &HostRuntime) -> anyhow::Result<()> {
    let alloc = rt.alloc();
    let mut twice = Items::new(alloc);
    twice.push(Term::Bound(0))?;
    twice.push(Term::Bound(0))?;
    let pattern = Shared::new(alloc, twice)?;
    let mut two = Items::new(alloc);
    two.push(constant(alloc, 1)?)?;
    two.push(constant(alloc, 2)?)?;
    let target = Shared::new(alloc, two)?;
    tell_match(rt, "one variable against two constants", &pattern, &target)
}

fn tell_lifted(rt: &HostRuntime) -> anyhow::Result<()> {
    let formula = Formula::Not(Shared::new(rt.alloc(), Formula::Verum)?);
    let lifted = lift(rt.alloc(), &formula)?;
    let is_negation =
        matches!(&lifted, FFormula::Not(inner) if matches!(inner.get(), FFormula::Verum));
    println!(rt; "~ $true is lifted to itself: {is_negation}")?;
    Ok(())
}

/// `(p(#0) & $true) & ..`, this many levels deep to the left.
fn chain(alloc: Global, levels: u32) -> Result<FFormula, AllocError> {
    let mut chain = FFormula::Atom(0, arguments(alloc, FTerm::Bound(0))?);
    for _ in 0..levels {
        let left = Shared::new(alloc, chain)?;
        chain = FFormula::And(left, Shared::new(alloc, FFormula::Verum)?);
    }
    Ok(chain)
}

fn tell_deep(rt: &HostRuntime) -> anyhow::Result<()> {
    let body = chain(rt.alloc(), 100_000)?;
    let filled = fill(rt.alloc(), &body, &FTerm::Meta(X))?;
    let inside = innermost(&filled);
    println!(rt; "100,000 levels below, a filled variable is {inside}")?;
    let mut fills = Items::new(rt.alloc());
    fills.push(Fill::Unused)?;
    let same = fill_all(rt.alloc(), &body, &fills)?;
    let inside = innermost(&same);
    println!(rt; "and one that is left open is {inside}")?;
    Ok(())
}

pub fn tell_all(rt: &HostRuntime) -> anyhow::Result<()> {
    tell_matches(rt)?;
    tell_twice(rt)?;
    tell_lifted(rt)?;
    tell_deep(rt)
}
