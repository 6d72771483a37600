//! One step of a branch.

ghost use Rattle.std.specs.Prelude.{◌≡◌, None, MatchResult};
ghost use Rattle.branch_rules.specs.BranchValue.{branch_of};
ghost use Rattle.branch_rules.specs.BranchView.{IsReady};
ghost use Rattle.branch_rules.specs.Steps.{IsNextAnswer, with_ready};

use crate::advancing::advance;
use crate::branch::Branch;
use crate::forking::{Sealing, seal_all};
use crate::outcome::{Next, NextRefused};
use crate::work::Outcome;
use rewrite_rules::Rules;
use std::alloc::Global;

/// Makes the place ready. On Err the branch is as it was.
fn split_ready(branch: Branch, place: u32) -> Result<Branch, Branch>
    requires ready { branch.ready ≡ None }
    requires splits { IsReady (branch_of branch) place }
    ensures { MatchResult result (λ b. b ≡ with_ready branch place) (λ b. b ≡ branch) }
{
    let Branch {
        lists,
        agenda,
        turns,
        ready: _,
    } = branch;
    let Sealing {
        lists,
        turns,
        is_sealed,
    } = seal_all(lists, turns);
    if is_sealed {
        Ok(Branch {
            lists,
            agenda,
            turns,
            ready: Some(place),
        })
    } else {
        Err(Branch {
            lists,
            agenda,
            turns,
            ready: None,
        })
    }
}

/// Does the step that comes next at the depth, or makes its place ready where it is a split. On Err memory was wanting,
/// and the branch is as it was.
pub fn next(alloc: Global, branch: Branch, rules: &Rules, depth: u32) -> Result<Next, NextRefused>
    requires ready { branch.ready ≡ None }
    requires rules { rules.now ≡ branch.rules }
    ensures { MatchResult result (IsNextAnswer branch depth) (λ refused. refused.branch ≡ branch) }
{
    let mut branch = branch;
    match advance(
        alloc,
        &mut branch.lists,
        rules,
        &mut branch.agenda,
        &mut branch.turns,
        depth,
    ) {
        Err(_) => Err(NextRefused { branch }),
        Ok(Outcome::Done) => Ok(Next::Done(branch)),
        Ok(Outcome::One(step)) => Ok(Next::One(branch, step)),
        Ok(Outcome::Splits(place)) => match split_ready(branch, place) {
            Ok(branch) => Ok(Next::Splits { branch, place }),
            Err(branch) => Err(NextRefused { branch }),
        },
    }
}
