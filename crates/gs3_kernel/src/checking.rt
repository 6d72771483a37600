//! Checking a proof step by step.

ghost use Rattle.fol_core.specs.View.{formulas_of};
ghost use Rattle.fof_parse.specs.Problem.{Start};
ghost use Rattle.fof_parse.specs.ProblemView.{plain_problem};
ghost use Rattle.gs3_rules.specs.Apply.{rules_of};
ghost use Rattle.gs3_kernel.specs.Check.{Checks};

use crate::open::{Open, advance, begin};
use fof_parse::{Problem, start_list};
use fol_core::Formulas;
use gs3_rules::Steps;
use gs3_text::Tree;
use std::alloc::{AllocError, Global};
use thiserror::Error;

/// Why the steps are no proof.
#[derive(Clone, Copy, Debug, PartialEq, Eq, Error)]
pub enum CheckError {
    /// The steps go wrong at this place, from 0.
    #[error("the proof goes wrong at step {step}")]
    Wrong { step: u64 },
    #[error("out of memory")]
    OutOfMemory,
}

impl From<AllocError> for CheckError {
    ghost use Rattle.std.specs.Prelude.{◌≡◌};
    ghost use Rattle.gs3_kernel.specs.declared.checking.CheckError.TheVariants.{OutOfMemory};

    ghost from_gives = { λ _ e. e ≡ OutOfMemory };

    fn from(_e: AllocError) -> CheckError {
        CheckError::OutOfMemory
    }
}

/// Whether the steps, read in preorder, are a proof that refutes the list.
///
/// Where they are no proof, the place is that of the first step whose condition fails on its list; of the first step
/// after the end, where a proof is over before them; or the number of the steps, where they end before a proof is
/// whole. The branches of the proof share one list, no formula is copied whole, and nothing recurses on the proof's
/// depth.
pub fn check_steps(alloc: Global, start: Formulas, steps: &Steps) -> Result<(), CheckError>
    ensures { Checks (formulas_of start) (rules_of steps.now) result }
{
    let mut left = Some(begin(alloc, start));
    for (at, step) in steps.as_slice().iter().enumerate() {
        let wrong = CheckError::Wrong { step: at as u64 };
        let Some(state) = left else {
            return Err(wrong);
        };
        let Some(next) = advance(alloc, state, step)? else {
            return Err(wrong);
        };
        left = next;
    }
    match left {
        None => Ok(()),
        Some(_) => {
            Err(CheckError::Wrong {
                step: steps.len() as u64,
            })
        }
    }
}

/// Whether the tree is a GS3 refutation of the problem's start list: its axioms and its negated conjecture.
///
/// Where it is none, the place is that of the first step in preorder whose condition fails, from 0.
pub fn check(alloc: Global, problem: &Problem, tree: &Tree) -> Result<(), CheckError>
    ensures { Checks (Start (plain_problem problem.now)) (rules_of tree.now) result }
{
    let start = start_list(alloc, problem)?;
    check_steps(alloc, start, tree.steps())
}
