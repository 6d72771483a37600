//! The formulas that a step appends.

ghost use Rattle.std.specs.Prelude.{◌≡◌, [], ◌∷◌, IfOk};
ghost use Rattle.free_terms.specs.Free.{HoldsNoBound, instance};
ghost use Rattle.free_terms.specs.View.{term_of, formula_of, formulas_of};
ghost use Rattle.fol_core.specs.Syntax.{not};
ghost use Rattle.gs3_rules.specs.Rules.{alpha_parts, beta_parts, delta_part, gamma_part};
ghost use Rattle.branch_rules.specs.Branch.{or_none, one_of, left_part, right_part};

use containers::{Items, Shared};
use free_terms::{FFormula, FFormulas, FTerm, fill};
use std::alloc::{AllocError, Global};

/// An equal formula, in constant time.
fn plain(f: &Shared<FFormula>) -> Result<FFormula, AllocError>
    ensures { IfOk result (λ g. formula_of g ≡ formula_of f.now) }
{
    f.get().copy()
}

/// The negation of a formula, in constant time.
fn negated(f: &Shared<FFormula>) -> Result<FFormula, AllocError>
    ensures { IfOk result (λ g. formula_of g ≡ not (formula_of f.now)) }
{
    Ok(FFormula::Not(f.copy()?))
}

fn one(alloc: Global, f: FFormula) -> Result<FFormulas, AllocError>
    ensures { IfOk result (λ fs. fs ≡ f ∷ []) }
{
    let mut list = Items::new(alloc);
    list.push(f)?;
    Ok(list)
}

fn two(alloc: Global, f: FFormula, g: FFormula) -> Result<FFormulas, AllocError>
    ensures { IfOk result (λ fs. fs ≡ f ∷ g ∷ []) }
{
    let mut list = Items::new(alloc);
    list.push(f)?;
    list.push(g)?;
    Ok(list)
}

fn none(alloc: Global) -> Result<FFormulas, AllocError>
    ensures { IfOk result (λ fs. fs ≡ []) }
{
    Ok(Items::new(alloc))
}

fn conjuncts_of_not(alloc: Global, f: &FFormula) -> Result<FFormulas, AllocError>
    ensures { IfOk result (λ fs. formulas_of fs ≡ or_none (alpha_parts (not (formula_of f.now)))) }
{
    match f {
        FFormula::Not(a) => one(alloc, plain(a)?),
        FFormula::Or(a, b) => two(alloc, negated(a)?, negated(b)?),
        FFormula::Imp(a, b) => two(alloc, plain(a)?, negated(b)?),
        FFormula::Atom(..) | FFormula::Verum | FFormula::Falsum => none(alloc),
        FFormula::And(..) | FFormula::Iff(..) | FFormula::All(_) | FFormula::Ex(_) => none(alloc),
    }
}

/// The parts of a conjunctive formula, and none of any other.
pub(crate) fn conjuncts(alloc: Global, f: &FFormula) -> Result<FFormulas, AllocError>
    ensures { IfOk result (λ fs. formulas_of fs ≡ or_none (alpha_parts (formula_of f.now))) }
{
    match f {
        FFormula::And(a, b) => two(alloc, plain(a)?, plain(b)?),
        FFormula::Not(a) => conjuncts_of_not(alloc, a.get()),
        FFormula::Atom(..) | FFormula::Verum | FFormula::Falsum | FFormula::Or(..) => none(alloc),
        FFormula::Imp(..) | FFormula::Iff(..) | FFormula::All(_) | FFormula::Ex(_) => none(alloc),
    }
}

fn left_of_not(alloc: Global, f: &FFormula) -> Result<FFormulas, AllocError>
    ensures { IfOk result (λ fs. formulas_of fs ≡ left_part (beta_parts (not (formula_of f.now)))) }
{
    match f {
        FFormula::And(a, _) => one(alloc, negated(a)?),
        FFormula::Iff(a, b) => two(alloc, plain(a)?, negated(b)?),
        FFormula::Atom(..) | FFormula::Verum | FFormula::Falsum | FFormula::Not(_) => none(alloc),
        FFormula::Or(..) | FFormula::Imp(..) | FFormula::All(_) | FFormula::Ex(_) => none(alloc),
    }
}

/// The left side of a disjunctive formula, and none of any other.
pub(crate) fn left_side(alloc: Global, f: &FFormula) -> Result<FFormulas, AllocError>
    ensures { IfOk result (λ fs. formulas_of fs ≡ left_part (beta_parts (formula_of f.now))) }
{
    match f {
        FFormula::Or(a, _) => one(alloc, plain(a)?),
        FFormula::Imp(a, _) => one(alloc, negated(a)?),
        FFormula::Iff(a, b) => two(alloc, plain(a)?, plain(b)?),
        FFormula::Not(a) => left_of_not(alloc, a.get()),
        FFormula::Atom(..) | FFormula::Verum | FFormula::Falsum => none(alloc),
        FFormula::And(..) | FFormula::All(_) | FFormula::Ex(_) => none(alloc),
    }
}

fn right_of_not(alloc: Global, f: &FFormula) -> Result<FFormulas, AllocError>
    ensures { IfOk result (λ fs. formulas_of fs ≡ right_part (beta_parts (not (formula_of f.now)))) }
{
    match f {
        FFormula::And(_, b) => one(alloc, negated(b)?),
        FFormula::Iff(a, b) => two(alloc, negated(a)?, plain(b)?),
        FFormula::Atom(..) | FFormula::Verum | FFormula::Falsum | FFormula::Not(_) => none(alloc),
        FFormula::Or(..) | FFormula::Imp(..) | FFormula::All(_) | FFormula::Ex(_) => none(alloc),
    }
}

/// The right side of a disjunctive formula, and none of any other.
pub(crate) fn right_side(alloc: Global, f: &FFormula) -> Result<FFormulas, AllocError>
    ensures { IfOk result (λ fs. formulas_of fs ≡ right_part (beta_parts (formula_of f.now))) }
{
    match f {
        FFormula::Or(_, b) | FFormula::Imp(_, b) => one(alloc, plain(b)?),
        FFormula::Iff(a, b) => two(alloc, negated(a)?, negated(b)?),
        FFormula::Not(a) => right_of_not(alloc, a.get()),
        FFormula::Atom(..) | FFormula::Verum | FFormula::Falsum => none(alloc),
        FFormula::And(..) | FFormula::All(_) | FFormula::Ex(_) => none(alloc),
    }
}

/// The negation of the instance of a body.
fn negated_instance(
    alloc: Global,
    body: &Shared<FFormula>,
    by: &FTerm,
) -> Result<FFormula, AllocError>
    requires { HoldsNoBound (term_of by.now) }
    ensures { IfOk result (λ f. formula_of f ≡ not (instance (formula_of body.now) (term_of by.now))) }
{
    let instance = fill(alloc, body.get(), by)?;
    Ok(FFormula::Not(Shared::new(alloc, instance)?))
}

/// The instance of an existential formula, and none of any other.
pub(crate) fn witness(alloc: Global, f: &FFormula, by: &FTerm) -> Result<FFormulas, AllocError>
    requires { HoldsNoBound (term_of by.now) }
    ensures { IfOk result (λ fs. formulas_of fs
        ≡ one_of (delta_part (λ a. instance a (term_of by.now)) (formula_of f.now))) }
{
    match f {
        FFormula::Ex(a) => one(alloc, fill(alloc, a.get(), by)?),
        FFormula::Not(g) => match g.get() {
            FFormula::All(a) => one(alloc, negated_instance(alloc, a, by)?),
            FFormula::Atom(..) | FFormula::Verum | FFormula::Falsum => none(alloc),
            FFormula::Not(_) | FFormula::And(..) | FFormula::Or(..) => none(alloc),
            FFormula::Imp(..) | FFormula::Iff(..) | FFormula::Ex(_) => none(alloc),
        },
        FFormula::Atom(..) | FFormula::Verum | FFormula::Falsum | FFormula::And(..) => none(alloc),
        FFormula::Or(..) | FFormula::Imp(..) | FFormula::Iff(..) | FFormula::All(_) => none(alloc),
    }
}

/// The instance of a universal formula, and none of any other.
pub(crate) fn instance_of(alloc: Global, f: &FFormula, by: &FTerm) -> Result<FFormulas, AllocError>
    requires { HoldsNoBound (term_of by.now) }
    ensures { IfOk result (λ fs. formulas_of fs
        ≡ one_of (gamma_part (λ a. instance a (term_of by.now)) (formula_of f.now))) }
{
    match f {
        FFormula::All(a) => one(alloc, fill(alloc, a.get(), by)?),
        FFormula::Not(g) => match g.get() {
            FFormula::Ex(a) => one(alloc, negated_instance(alloc, a, by)?),
            FFormula::Atom(..) | FFormula::Verum | FFormula::Falsum => none(alloc),
            FFormula::Not(_) | FFormula::And(..) | FFormula::Or(..) => none(alloc),
            FFormula::Imp(..) | FFormula::Iff(..) | FFormula::All(_) => none(alloc),
        },
        FFormula::Atom(..) | FFormula::Verum | FFormula::Falsum | FFormula::And(..) => none(alloc),
        FFormula::Or(..) | FFormula::Imp(..) | FFormula::Iff(..) | FFormula::Ex(_) => none(alloc),
    }
}
