//! The branch on which nothing was done.

ghost use Rattle.std.specs.Prelude.{◌≡◌, None, map, IfOk};
ghost use Rattle.fol_core.specs.View as plain;
ghost use Rattle.fof_parse.specs.Problem.{Start};
ghost use Rattle.fof_parse.specs.ProblemView.{plain_problem};
ghost use Rattle.free_terms.specs.Free.{lift};
ghost use Rattle.free_terms.specs.View.{formulas_of};
ghost use Rattle.rewrite_rules.specs.Fitting.{HoldNoParams};
ghost use Rattle.rewrite_rules.specs.RuleView.{rules_in};
ghost use Rattle.branch_rules.specs.Branch.{root};
ghost use Rattle.branch_rules.specs.BranchValue.{branch_of};

use crate::branch::{Agenda, Branch, Counts, Lists};
use crate::growing::push_entries;
use crate::lists::small;
use containers::{Items, Shared};
use fof_parse::Problem;
use fol_core::Formula;
use free_terms::{FFormula, FFormulas, lift};
use rewrite_rules::Rules;
use seg_list::SegList;
use std::alloc::{AllocError, Global};

/// The axioms as formulas of the free-variable tableau.
fn lift_axioms(alloc: Global, axioms: &[Formula]) -> Result<FFormulas, AllocError>
    requires { HoldNoParams (plain.formulas_of axioms.now) }
    ensures { IfOk result (λ fs. formulas_of fs ≡ map lift (plain.formulas_of axioms.now)) }
{
    let mut out = Items::new(alloc);
    for i in 0..axioms.len() {
        let lifted = lift(alloc, &axioms[i])?;
        out.push(lifted)?;
    }
    Ok(out)
}

/// The start list's formulas as those of the free-variable tableau.
fn start_formulas(alloc: Global, problem: &Problem) -> Result<FFormulas, AllocError>
    ensures { IfOk result (λ fs. formulas_of fs ≡ map lift (Start (plain_problem problem.now))) }
{
    let mut out = lift_axioms(alloc, problem.axioms.as_slice())?;
    if let Some(f) = &problem.conjecture {
        let lifted = lift(alloc, f)?;
        out.push(FFormula::Not(Shared::new(alloc, lifted)?))?;
    }
    Ok(out)
}

/// The branch of the problem's start list with these rules, on which nothing was done. The branch shares the rules. An
/// error is want of memory.
pub fn start(alloc: Global, problem: &Problem, rules: &Shared<Rules>) -> Result<Branch, AllocError>
    ensures branch { IfOk result (λ b. branch_of b
        ≡ root (map lift (Start (plain_problem problem.now))) (rules_in rules.now)) }
    ensures rules { IfOk result (λ b. b.rules ≡ rules.now) }
    ensures ready { IfOk result (λ b. b.ready ≡ None) }
{
    let formulas = start_formulas(alloc, problem)?;
    let start = small(formulas.len())?;
    let mut entries = SegList::empty(alloc);
    push_entries(&mut entries, formulas.as_slice(), 0, 0)?;
    Ok(Branch {
        lists: Lists {
            rules: rules.copy()?,
            start,
            entries,
            steps: SegList::empty(alloc),
            metavars: SegList::empty(alloc),
            counts: Counts {
                segment: 1,
                metavars: 0,
                skolems: 0,
                splits: 0,
            },
        },
        agenda: Agenda {
            depth: 0,
            conjunctive: 0,
            existential: 0,
            disjunctive: 0,
            universal: 0,
            turn: 0,
            untaken: 0,
            waiting: 0,
        },
        turns: SegList::empty(alloc),
        ready: None,
    })
}
