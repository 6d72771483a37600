//! The start list of a problem.

ghost use Rattle.std.specs.Prelude.{◌≡◌, IfOk};
ghost use Rattle.fol_core.specs.View.{formulas_of};
ghost use Rattle.fof_parse.specs.Problem.{Start};
ghost use Rattle.fof_parse.specs.ProblemView.{plain_problem};

use crate::formula::negated;
use crate::problem::Problem;
use containers::Items;
use fol_core::{Formulas, Symbols};
use std::alloc::{AllocError, Global};

fn copies(alloc: Global, formulas: &Formulas) -> Result<Formulas, AllocError>
    ensures { IfOk result (λ fs. fs ≡ formulas.now) }
{
    let mut out = Items::new(alloc);
    for f in formulas.as_slice() {
        let copy = f.copy()?;
        out.push(copy)?;
    }
    Ok(out)
}

/// What a proof has to refute: the axioms in input order, and then the negated conjecture if there is one.
pub fn start_list(alloc: Global, problem: &Problem) -> Result<Formulas, AllocError>
    ensures { IfOk result (λ fs. formulas_of fs ≡ Start (plain_problem problem.now)) }
{
    let mut list = copies(alloc, &problem.axioms)?;
    if let Some(conjecture) = &problem.conjecture {
        list.push(negated(alloc, conjecture.copy()?)?)?;
    }
    Ok(list)
}

/// A problem's symbols, and its start list, made of the formulas of the problem itself: nothing is copied.
pub fn into_start_list(alloc: Global, problem: Problem) -> Result<(Symbols, Formulas), AllocError>
    ensures symbols { IfOk result (λ r. r.0 ≡ problem.symbols) }
    ensures start { IfOk result (λ r. formulas_of r.1 ≡ Start (plain_problem problem)) }
{
    let Problem {
        symbols,
        statements: _,
        axioms,
        conjecture,
    } = problem;
    let mut list = axioms;
    if let Some(conjecture) = conjecture {
        list.push(negated(alloc, conjecture)?)?;
    }
    Ok((symbols, list))
}
