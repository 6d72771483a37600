//! The step that comes next is found and done.

ghost use Rattle.std.specs.Prelude.{◌≡◌, IfOk, OnErr};
ghost use Rattle.branch_rules.specs.BranchView.{branch_in, born_in, Reads, IsAgenda, HoldSame};
ghost use Rattle.branch_rules.specs.Outcomes.{IsOutcome};

use crate::branch::{Agenda, Lists, Turn};
use crate::forking::open_all;
use crate::planning::next_plan;
use crate::taking::take;
use crate::work::{Outcome, Plan};
use rewrite_rules::Rules;
use seg_list::SegList;
use std::alloc::{AllocError, Global};

/// Does the step that comes next at the depth, but for a split, of which it gives the place.
pub(crate) fn advance(
    alloc: Global,
    lists: &mut Lists,
    rules: &Rules,
    agenda: &mut Agenda,
    turns: &mut SegList<Turn>,
    depth: u32,
) -> Result<Outcome, AllocError>
    requires reads { Reads (branch_in lists.old) lists.old }
    requires rules { rules.now ≡ lists.old.rules }
    requires agenda { IsAgenda (branch_in lists.old) agenda.old (born_in lists.old) turns.old.items }
    ensures reads { Reads (branch_in lists.new) lists.new }
    ensures agenda { IsAgenda (branch_in lists.new) agenda.new (born_in lists.new) turns.new.items }
    ensures ok { IfOk result (IsOutcome lists.old lists.new depth) }
    ensures err { OnErr result (HoldSame lists.old lists.new) }
{
    open_all(lists, turns)?;
    match next_plan(alloc, lists, rules, agenda, turns, depth)? {
        Plan::Done => Ok(Outcome::Done),
        Plan::Split(place) => Ok(Outcome::Splits(place)),
        Plan::Step(work) => {
            let step = take(lists, agenda, turns, work)?;
            Ok(Outcome::One(step))
        }
    }
}
