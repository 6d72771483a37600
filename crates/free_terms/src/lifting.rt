//! Formulas without parameters as formulas of the free-variable tableau.
ghost use Rattle.std.specs.Prelude.{◌≡◌, IfOk};
ghost use Rattle.fol_core.specs.View as plain;
ghost use Rattle.free_terms.specs.Free.{lift, lift_term, lift_terms, HoldsNoParam};
ghost use Rattle.free_terms.specs.NoParam.{NoParamIn, NoParamInTerm, NoParamInTerms};
ghost use Rattle.free_terms.specs.View.{term_of, terms_of, formula_of};

use crate::formula::FFormula;
use crate::term::{FTerm, FTerms};
use containers::{Items, Shared};
use fol_core::{Formula, Term, Terms, Wrap, rebuilt};
use std::alloc::{AllocError, Global};

/// A formula without parameters, as one of the free-variable tableau.
#[tactic(auto, using(crate::proofs::Params::none_in))]
pub fn lift(alloc: Global, f: &Formula) -> Result<FFormula, AllocError>
    requires { HoldsNoParam (plain.formula_of f.now) }
    ensures { IfOk result (λ g. formula_of g ≡ lift (plain.formula_of f.now)) }
{
    lifted(alloc, f)
}

#[cycle(lifted)]
#[tactic(auto, using(crate::proofs::Trees::levels))]
fn lifted(alloc: Global, f: &Formula) -> Result<FFormula, AllocError>
    requires { NoParamIn (plain.formula_of f.now) }
    ensures { IfOk result (λ g. formula_of g ≡ lift (plain.formula_of f.now)) }
{
    let mut wraps = Vec::new(alloc);
    let mut at = f;
    loop {
        let (wrap, inner) = match at {
            Formula::Atom(p, args) => {
                let args = lifted_terms(alloc, args)?;
                return rebuilt(alloc, FFormula::Atom(*p, args), wraps);
            }
            Formula::Verum => return rebuilt(alloc, FFormula::Verum, wraps),
            Formula::Falsum => return rebuilt(alloc, FFormula::Falsum, wraps),
            Formula::Not(a) => (Wrap::Not, a),
            Formula::And(a, b) => (Wrap::And(lifted_part(alloc, b)?), a),
            Formula::Or(a, b) => (Wrap::Or(lifted_part(alloc, b)?), a),
            Formula::Imp(a, b) => (Wrap::Imp(lifted_part(alloc, b)?), a),
            Formula::Iff(a, b) => (Wrap::Iff(lifted_part(alloc, b)?), a),
            Formula::All(a) => (Wrap::All, a),
            Formula::Ex(a) => (Wrap::Ex, a),
        };
        wraps.push(wrap)?;
        at = inner.get();
    }
}

#[cycle(lifted)]
fn lifted_part(alloc: Global, part: &Shared<Formula>) -> Result<Shared<FFormula>, AllocError>
    requires { NoParamIn (plain.formula_of part.now) }
    ensures { IfOk result (λ g. formula_of g ≡ lift (plain.formula_of part.now)) }
{
    let part = lifted(alloc, part.get())?;
    Shared::new(alloc, part)
}

#[cycle(lifted_term)]
fn lifted_term(alloc: Global, t: &Term) -> Result<FTerm, AllocError>
    requires { NoParamInTerm (plain.term_of t.now) }
    ensures { IfOk result (λ u. term_of u ≡ lift_term (plain.term_of t.now)) }
{
    match t {
        Term::Bound(n) => Ok(FTerm::Bound(*n)),
        Term::Param(_) => unreachable!(),
        Term::App(f, us) => Ok(FTerm::App(*f, lifted_terms(alloc, us)?)),
    }
}

#[cycle(lifted_term)]
fn lifted_terms(alloc: Global, us: &Terms) -> Result<FTerms, AllocError>
    requires { NoParamInTerms (plain.terms_of us.now) }
    ensures { IfOk result (λ vs. terms_of vs ≡ lift_terms (plain.terms_of us.now)) }
{
    let mut out = Items::new(alloc);
    for u in us.get().as_slice() {
        let v = lifted_term(alloc, u)?;
        out.push(v)?;
    }
    Shared::new(alloc, out)
}
