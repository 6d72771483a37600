//! The parts of a formula that a step appends.

ghost use Rattle.std.specs.Prelude.{◌≡◌, [], ◌∷◌, option_map, IsTrue, ◌↔◌, Ok, Some, IfOk};
ghost use Rattle.fol_core.specs.View.{term_of, formula_of, formulas_of};
ghost use Rattle.fol_core.specs.Syntax.{not, instance, IsClosedTerm};
ghost use Rattle.gs3_rules.specs.Rules.{alpha_parts, beta_parts, delta_part, gamma_part, AreOpposite};
ghost use Rattle.gs3_rules.specs.Apply.{sides_of};

use containers::{Items, Shared};
use fol_core::{Formula, Formulas, Term, instantiate, same_terms};
use std::alloc::{AllocError, Global};

/// A copy of a formula, which shares its parts.
fn plain(f: &Shared<Formula>) -> Result<Formula, AllocError>
    ensures { IfOk result (λ g. formula_of g ≡ formula_of f.now) }
{
    f.get().copy()
}

/// The negation of a formula.
fn negated(f: &Shared<Formula>) -> Result<Formula, AllocError>
    ensures { IfOk result (λ g. formula_of g ≡ not (formula_of f.now)) }
{
    Ok(Formula::Not(f.copy()?))
}

fn one(alloc: Global, f: Formula) -> Result<Formulas, AllocError>
    ensures { IfOk result (λ fs. fs ≡ f ∷ []) }
{
    let mut list = Items::new(alloc);
    list.push(f)?;
    Ok(list)
}

fn two(alloc: Global, f: Formula, g: Formula) -> Result<Formulas, AllocError>
    ensures { IfOk result (λ fs. fs ≡ f ∷ g ∷ []) }
{
    let mut list = Items::new(alloc);
    list.push(f)?;
    list.push(g)?;
    Ok(list)
}

fn alpha_of_not(alloc: Global, f: &Formula) -> Result<Option<Formulas>, AllocError>
    ensures { IfOk result (λ parts. option_map formulas_of parts ≡ alpha_parts (not (formula_of f.now))) }
{
    match f {
        Formula::Not(a) => Ok(Some(one(alloc, plain(a)?)?)),
        Formula::Or(a, b) => Ok(Some(two(alloc, negated(a)?, negated(b)?)?)),
        Formula::Imp(a, b) => Ok(Some(two(alloc, plain(a)?, negated(b)?)?)),
        Formula::Atom(..) | Formula::Verum | Formula::Falsum => Ok(None),
        Formula::And(..) | Formula::Iff(..) | Formula::All(_) | Formula::Ex(_) => Ok(None),
    }
}

pub(crate) fn alpha(alloc: Global, f: &Formula) -> Result<Option<Formulas>, AllocError>
    ensures { IfOk result (λ parts. option_map formulas_of parts ≡ alpha_parts (formula_of f.now)) }
{
    match f {
        Formula::And(a, b) => Ok(Some(two(alloc, plain(a)?, plain(b)?)?)),
        Formula::Not(a) => alpha_of_not(alloc, a.get()),
        Formula::Atom(..) | Formula::Verum | Formula::Falsum | Formula::Or(..) => Ok(None),
        Formula::Imp(..) | Formula::Iff(..) | Formula::All(_) | Formula::Ex(_) => Ok(None),
    }
}

fn pair(left: Formulas, right: Formulas) -> Result<Option<(Formulas, Formulas)>, AllocError>
    ensures { result ≡ Ok (Some (left, right)) }
{
    Ok(Some((left, right)))
}

fn beta_of_not(alloc: Global, f: &Formula) -> Result<Option<(Formulas, Formulas)>, AllocError>
    ensures { IfOk result (λ parts. sides_of parts ≡ beta_parts (not (formula_of f.now))) }
{
    match f {
        Formula::And(a, b) => { pair(one(alloc, negated(a)?)?, one(alloc, negated(b)?)?) }
        Formula::Iff(a, b) => {
            let left = two(alloc, plain(a)?, negated(b)?)?;
            let right = two(alloc, negated(a)?, plain(b)?)?;
            pair(left, right)
        }
        Formula::Atom(..) | Formula::Verum | Formula::Falsum | Formula::Not(_) => Ok(None),
        Formula::Or(..) | Formula::Imp(..) | Formula::All(_) | Formula::Ex(_) => Ok(None),
    }
}

pub(crate) fn beta(alloc: Global, f: &Formula) -> Result<Option<(Formulas, Formulas)>, AllocError>
    ensures { IfOk result (λ parts. sides_of parts ≡ beta_parts (formula_of f.now)) }
{
    match f {
        Formula::Or(a, b) => pair(one(alloc, plain(a)?)?, one(alloc, plain(b)?)?),
        Formula::Imp(a, b) => { pair(one(alloc, negated(a)?)?, one(alloc, plain(b)?)?) }
        Formula::Iff(a, b) => {
            let left = two(alloc, plain(a)?, plain(b)?)?;
            let right = two(alloc, negated(a)?, negated(b)?)?;
            pair(left, right)
        }
        Formula::Not(a) => beta_of_not(alloc, a.get()),
        Formula::Atom(..) | Formula::Verum | Formula::Falsum => Ok(None),
        Formula::And(..) | Formula::All(_) | Formula::Ex(_) => Ok(None),
    }
}

/// The negation of the instance of a body.
fn negated_instance(alloc: Global, body: &Shared<Formula>, by: &Term) -> Result<Formula, AllocError>
    requires { IsClosedTerm (term_of by.now) }
    ensures { IfOk result (λ f. formula_of f ≡ not (instance (formula_of body.now) (term_of by.now))) }
{
    let instance = instantiate(alloc, body.get(), by)?;
    Ok(Formula::Not(Shared::new(alloc, instance)?))
}

pub(crate) fn delta(alloc: Global, f: &Formula, by: &Term) -> Result<Option<Formula>, AllocError>
    requires { IsClosedTerm (term_of by.now) }
    ensures { IfOk result (λ part. option_map formula_of part
        ≡ delta_part (λ a. instance a (term_of by.now)) (formula_of f.now)) }
{
    match f {
        Formula::Ex(a) => Ok(Some(instantiate(alloc, a.get(), by)?)),
        Formula::Not(g) => match g.get() {
            Formula::All(a) => Ok(Some(negated_instance(alloc, a, by)?)),
            Formula::Atom(..) | Formula::Verum | Formula::Falsum | Formula::Not(_) => Ok(None),
            Formula::And(..) | Formula::Or(..) | Formula::Imp(..) => Ok(None),
            Formula::Iff(..) | Formula::Ex(_) => Ok(None),
        },
        Formula::Atom(..) | Formula::Verum | Formula::Falsum | Formula::And(..) => Ok(None),
        Formula::Or(..) | Formula::Imp(..) | Formula::Iff(..) | Formula::All(_) => Ok(None),
    }
}

pub(crate) fn gamma(alloc: Global, f: &Formula, by: &Term) -> Result<Option<Formula>, AllocError>
    requires { IsClosedTerm (term_of by.now) }
    ensures { IfOk result (λ part. option_map formula_of part
        ≡ gamma_part (λ a. instance a (term_of by.now)) (formula_of f.now)) }
{
    match f {
        Formula::All(a) => Ok(Some(instantiate(alloc, a.get(), by)?)),
        Formula::Not(g) => match g.get() {
            Formula::Ex(a) => Ok(Some(negated_instance(alloc, a, by)?)),
            Formula::Atom(..) | Formula::Verum | Formula::Falsum | Formula::Not(_) => Ok(None),
            Formula::And(..) | Formula::Or(..) | Formula::Imp(..) => Ok(None),
            Formula::Iff(..) | Formula::All(_) => Ok(None),
        },
        Formula::Atom(..) | Formula::Verum | Formula::Falsum | Formula::And(..) => Ok(None),
        Formula::Or(..) | Formula::Imp(..) | Formula::Iff(..) | Formula::Ex(_) => Ok(None),
    }
}

/// Whether the second formula is the negation of the first, which is an atom.
pub(crate) fn closes(f: &Formula, g: &Formula) -> bool
    ensures { IsTrue result ↔ AreOpposite (formula_of f.now) (formula_of g.now) }
{
    let (Formula::Atom(p, us), Formula::Not(h)) = (f, g) else {
        return false;
    };
    let Formula::Atom(q, vs) = h.get() else {
        return false;
    };
    *p == *q && same_terms(us, vs)
}
