//! A step of a proof, and what it does to the list of a branch.

ghost use Rattle.std.specs.Prelude.{◌≡◌, ◌↔◌, ◌≤◌, [], ◌∷◌, max, slice_get, option_map, IsTrue, IfOk};
ghost use Rattle.std.specs.Option.{option_copied};
ghost use Rattle.fol_core.specs.View.{term_of, formula_of, formulas_of};
ghost use Rattle.gs3_rules.specs.Rules as rules;
ghost use Rattle.gs3_rules.specs.Apply.{rule_of, Answers};
ghost use Rattle.gs3_rules.specs.ParamBound.{list_bound, rule_bound};

use crate::parts;
use containers::Items;
use fol_core::{
    Formula, Formulas, Term, is_closed_term, occurs_param, param_bound, param_bound_in_term,
};
use std::alloc::{AllocError, Global};
use thiserror::Error;

/// A step of a GS3 proof, which works on a growing list of closed formulas and keeps all of them. It names its
/// principal formula by its place in the list, from 0.
#[derive(Drop)]
pub enum Step {
    /// An atom and its negation close the branch.
    Close { atom: u32, negated: u32 },
    /// `$false` closes the branch.
    FalseAt { place: u32 },
    /// `~$true` closes the branch.
    NotTrue { place: u32 },
    /// A conjunctive formula gives its parts: `~~A`, `A & B`, `~(A | B)` or `~(A => B)`.
    Alpha { place: u32 },
    /// A disjunctive formula gives two branches: `A | B`, `~(A & B)`, `A => B`, `A <=> B` or `~(A <=> B)`.
    Beta { place: u32 },
    /// `? X : A` or `~ ! X : A` gives its instance, or the negation of it, at a parameter that stands nowhere in the
    /// list.
    Delta { place: u32, param: u64 },
    /// `! X : A` or `~ ? X : A` gives its instance, or the negation of it, at a closed term.
    Gamma { place: u32, term: Term },
}

/// A list of steps.
pub type Steps = Items<Step>;

/// What each premise of a step appends to the list.
#[derive(Drop)]
pub enum Premises {
    Zero,
    One(Formulas),
    Two(Formulas, Formulas),
}

/// Why a step gives no premises.
#[derive(Clone, Copy, Debug, PartialEq, Eq, Error)]
pub enum ApplyError {
    #[error("the step's condition fails")]
    Wrong,
    #[error("out of memory")]
    OutOfMemory,
}

impl From<AllocError> for ApplyError {
    ghost use Rattle.std.specs.Prelude.{◌≡◌};
    ghost use Rattle.gs3_rules.specs.declared.step.ApplyError.TheVariants.{OutOfMemory};

    ghost from_gives = { λ _ e. e ≡ OutOfMemory };

    fn from(_e: AllocError) -> ApplyError {
        ApplyError::OutOfMemory
    }
}

fn at(list: &Formulas, place: u32) -> Option<&Formula>
    ensures { option_map formula_of (option_copied result) ≡ slice_get (formulas_of list.now) place }
{
    list.get(place as usize)
}

fn close(list: &Formulas, i: u32, j: u32) -> Result<Premises, ApplyError>
    ensures { Answers list.now (rules.close i j) result }
{
    let Some(f) = at(list, i) else {
        return Err(ApplyError::Wrong);
    };
    let Some(g) = at(list, j) else {
        return Err(ApplyError::Wrong);
    };
    if parts::closes(f, g) {
        Ok(Premises::Zero)
    } else {
        Err(ApplyError::Wrong)
    }
}

fn false_at(list: &Formulas, i: u32) -> Result<Premises, ApplyError>
    ensures { Answers list.now (rules.false_at i) result }
{
    match at(list, i) {
        Some(Formula::Falsum) => Ok(Premises::Zero),
        _ => Err(ApplyError::Wrong),
    }
}

fn alpha(alloc: Global, list: &Formulas, i: u32) -> Result<Premises, ApplyError>
    ensures { Answers list.now (rules.alpha i) result }
{
    let Some(f) = at(list, i) else {
        return Err(ApplyError::Wrong);
    };
    match parts::alpha(alloc, f)? {
        Some(parts) => Ok(Premises::One(parts)),
        None => Err(ApplyError::Wrong),
    }
}

fn beta(alloc: Global, list: &Formulas, i: u32) -> Result<Premises, ApplyError>
    ensures { Answers list.now (rules.beta i) result }
{
    let Some(f) = at(list, i) else {
        return Err(ApplyError::Wrong);
    };
    match parts::beta(alloc, f)? {
        Some((left, right)) => Ok(Premises::Two(left, right)),
        None => Err(ApplyError::Wrong),
    }
}

/// Whether the parameter stands nowhere in the list.
fn is_fresh(list: &Formulas, param: u64) -> bool
    ensures { IsTrue result ↔ rules.IsFresh param (formulas_of list.now) }
{
    for f in list.as_slice() {
        if occurs_param(f, param) {
            return false;
        }
    }
    true
}

fn not_true(list: &Formulas, i: u32) -> Result<Premises, ApplyError>
    ensures { Answers list.now (rules.not_true i) result }
{
    let Some(Formula::Not(f)) = at(list, i) else {
        return Err(ApplyError::Wrong);
    };
    match f.get() {
        Formula::Verum => Ok(Premises::Zero),
        _ => Err(ApplyError::Wrong),
    }
}

fn one(alloc: Global, part: Formula) -> Result<Premises, AllocError>
    ensures { IfOk result (λ p. p ≡ Premises.One (part ∷ [])) }
{
    let mut list = Items::new(alloc);
    list.push(part)?;
    Ok(Premises::One(list))
}

fn delta(
    alloc: Global,
    list: &Formulas,
    i: u32,
    param: u64,
    fresh: bool,
) -> Result<Premises, ApplyError>
    requires { IsTrue fresh ↔ rules.IsFresh param (formulas_of list.now) }
    ensures { Answers list.now (rules.delta i param) result }
{
    let Some(f) = at(list, i) else {
        return Err(ApplyError::Wrong);
    };
    if !fresh {
        return Err(ApplyError::Wrong);
    }
    match parts::delta(alloc, f, &Term::Param(param))? {
        Some(part) => Ok(one(alloc, part)?),
        None => Err(ApplyError::Wrong),
    }
}

fn gamma(alloc: Global, list: &Formulas, i: u32, term: &Term) -> Result<Premises, ApplyError>
    ensures { Answers list.now (rules.gamma i (term_of term.now)) result }
{
    let Some(f) = at(list, i) else {
        return Err(ApplyError::Wrong);
    };
    if !is_closed_term(term) {
        return Err(ApplyError::Wrong);
    }
    match parts::gamma(alloc, f, term)? {
        Some(part) => Ok(one(alloc, part)?),
        None => Err(ApplyError::Wrong),
    }
}

/// The least number above every parameter in the list. It takes no memory.
pub fn list_bound(list: &Formulas) -> u128
    ensures { result ≡ list_bound (formulas_of list.now) }
{
    let mut most = 0;
    for f in list.as_slice() {
        most = most.max(param_bound(f));
    }
    most
}

/// The least number above `above` and every parameter that the step names. It takes no memory.
pub fn bound_after(step: &Step, above: u128) -> u128
    ensures { result ≡ max above (rule_bound (rule_of step.now)) }
{
    match step {
        Step::Delta { place: _, param } => above.max(*param as u128 + 1),
        Step::Gamma { place: _, term } => above.max(param_bound_in_term(term)),
        Step::Close { .. } | Step::FalseAt { .. } | Step::NotTrue { .. } => above,
        Step::Alpha { .. } | Step::Beta { .. } => above,
    }
}

/// What each premise of the step appends to the list. Wrong comes exactly where the step's condition fails on the list:
/// a place that the list does not have, a formula of another form, a parameter that is not fresh or a term that is not
/// closed.
pub fn apply(alloc: Global, list: &Formulas, step: &Step) -> Result<Premises, ApplyError>
    ensures { Answers list.now (rule_of step.now) result }
{
    match step {
        Step::Close { atom, negated } => close(list, *atom, *negated),
        Step::FalseAt { place } => false_at(list, *place),
        Step::NotTrue { place } => not_true(list, *place),
        Step::Alpha { place } => alpha(alloc, list, *place),
        Step::Beta { place } => beta(alloc, list, *place),
        Step::Delta { place, param } => delta(alloc, list, *place, *param, is_fresh(list, *param)),
        Step::Gamma { place, term } => gamma(alloc, list, *place, term),
    }
}

/// The same of a list whose parameters are all below `above`. A parameter from there on is seen to be fresh at once,
/// and any other one is looked for in the whole list.
#[tactic(auto, using(crate::proofs::ParamBounds::fresh_above))]
pub fn apply_below(
    alloc: Global,
    list: &Formulas,
    above: u128,
    step: &Step,
) -> Result<Premises, ApplyError>
    requires { list_bound (formulas_of list.now) ≤ above }
    ensures { Answers list.now (rule_of step.now) result }
{
    if let Step::Delta { place, param } = step {
        if above <= *param as u128 {
            return delta(alloc, list, *place, *param, true);
        }
    }
    apply(alloc, list, step)
}
