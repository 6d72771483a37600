//! The step that comes next, class by class.

ghost use Rattle.std.specs.Prelude.{◌≡◌, ◌<◌, false, length, IfOk, MatchOption};
ghost use Rattle.branch_rules.specs.Branch.{entries};
ghost use Rattle.branch_rules.specs.Next.{conjunctive, existential, disjunctive};
ghost use Rattle.branch_rules.specs.BranchView.{branch_in, born_in, Reads, IsAgenda};
ghost use Rattle.branch_rules.specs.Plans.{PlanMeans, NonePending, HasFront};

use crate::branch::{Agenda, Lists, Turn};
use crate::choosing::{existential, has_room, looked, side_length, universal, where_room};
use crate::conjunct::find_conjunctive;
use crate::finding::find;
use crate::kinds::Kind;
use crate::lists::entry_at;
use crate::queue::{join, serve};
use crate::work::Plan;
use rewrite_rules::Rules;
use seg_list::SegList;
use std::alloc::{AllocError, Global};

/// What comes next of class 1.
fn next_conjunctive(
    alloc: Global,
    lists: &Lists,
    rules: &Rules,
    agenda: &mut Agenda,
    turns: &SegList<Turn>,
    depth: u32,
) -> Result<Option<Plan>, AllocError>
    requires reads { Reads (branch_in lists.now) lists.now }
    requires rules { rules.now ≡ lists.now.rules }
    requires agenda { IsAgenda (branch_in lists.now) agenda.old (born_in lists.now) turns.now.items }
    requires depth { agenda.old.depth ≡ depth }
    ensures agenda { IsAgenda (branch_in lists.now) agenda.new (born_in lists.now) turns.now.items }
    ensures depth { agenda.new.depth ≡ depth }
    ensures means { IfOk result (λ o. MatchOption o (NonePending (branch_in lists.now) depth conjunctive)
        (PlanMeans (branch_in lists.now) depth)) }
    ensures front { IfOk result (λ o. MatchOption o (Unit {0})
        (HasFront (branch_in lists.now) agenda.new turns.now.items)) }
{
    match find_conjunctive(
        alloc,
        lists,
        rules,
        agenda.conjunctive,
        agenda.untaken,
        depth,
    )? {
        Some(work) => {
            agenda.conjunctive = work.place;
            Ok(Some(where_room(lists, work)))
        }
        None => {
            agenda.conjunctive = lists.entries.len();
            Ok(None)
        }
    }
}

/// What comes next of class 2, where nothing of class 1 is pending.
fn next_existential(
    alloc: Global,
    lists: &Lists,
    rules: &Rules,
    agenda: &mut Agenda,
    turns: &SegList<Turn>,
    depth: u32,
) -> Result<Option<Plan>, AllocError>
    requires reads { Reads (branch_in lists.now) lists.now }
    requires rules { rules.now ≡ lists.now.rules }
    requires agenda { IsAgenda (branch_in lists.now) agenda.old (born_in lists.now) turns.now.items }
    requires depth { agenda.old.depth ≡ depth }
    requires none { NonePending (branch_in lists.now) depth conjunctive }
    ensures agenda { IsAgenda (branch_in lists.now) agenda.new (born_in lists.now) turns.now.items }
    ensures depth { agenda.new.depth ≡ depth }
    ensures means { IfOk result (λ o. MatchOption o (NonePending (branch_in lists.now) depth existential)
        (PlanMeans (branch_in lists.now) depth)) }
    ensures front { IfOk result (λ o. MatchOption o (Unit {0})
        (HasFront (branch_in lists.now) agenda.new turns.now.items)) }
{
    match find(lists, rules, Kind::Existential, agenda.existential) {
        Some(place) => {
            agenda.existential = place;
            let work = existential(alloc, lists, place)?;
            Ok(Some(where_room(lists, work)))
        }
        None => {
            agenda.existential = lists.entries.len();
            Ok(None)
        }
    }
}

/// What comes next of class 3, where nothing of classes 1 and 2 is pending.
fn next_split(
    lists: &Lists,
    rules: &Rules,
    agenda: &mut Agenda,
    turns: &SegList<Turn>,
    depth: u32,
) -> Option<Plan>
    requires reads { Reads (branch_in lists.now) lists.now }
    requires rules { rules.now ≡ lists.now.rules }
    requires agenda { IsAgenda (branch_in lists.now) agenda.old (born_in lists.now) turns.now.items }
    requires depth { agenda.old.depth ≡ depth }
    requires none { NonePending (branch_in lists.now) depth conjunctive }
    requires neither { NonePending (branch_in lists.now) depth existential }
    ensures agenda { IsAgenda (branch_in lists.now) agenda.new (born_in lists.now) turns.now.items }
    ensures depth { agenda.new.depth ≡ depth }
    ensures means { MatchOption result (NonePending (branch_in lists.now) depth disjunctive)
        (PlanMeans (branch_in lists.now) depth) }
    ensures front { MatchOption result (Unit {0}) (HasFront (branch_in lists.now) agenda.new turns.now.items) }
    ensures kept { agenda.new.universal ≡ agenda.old.universal }
{
    if lists.counts.splits >= 120 {
        return None;
    }
    match find(lists, rules, Kind::Disjunctive, agenda.disjunctive) {
        Some(place) => {
            agenda.disjunctive = place;
            let entry = entry_at(lists, place);
            if has_room(lists, side_length(&entry.formula)) {
                Some(Plan::Split(place))
            } else {
                Some(Plan::Done)
            }
        }
        None => {
            agenda.disjunctive = lists.entries.len();
            None
        }
    }
}

/// What comes next of class 4, where nothing of the other classes is pending and every universal entry has joined the
/// queue.
fn next_universal(
    alloc: Global,
    lists: &Lists,
    agenda: &mut Agenda,
    turns: &SegList<Turn>,
    depth: u32,
) -> Result<Plan, AllocError>
    requires reads { Reads (branch_in lists.now) lists.now }
    requires agenda { IsAgenda (branch_in lists.now) agenda.old (born_in lists.now) turns.now.items }
    requires depth { agenda.old.depth ≡ depth }
    requires joined { agenda.old.universal ≡ length (entries (branch_in lists.now)) }
    requires none { NonePending (branch_in lists.now) depth conjunctive }
    requires neither { NonePending (branch_in lists.now) depth existential }
    requires nor { NonePending (branch_in lists.now) depth disjunctive }
    ensures agenda { IsAgenda (branch_in lists.now) agenda.new (born_in lists.now) turns.now.items }
    ensures depth { agenda.new.depth ≡ depth }
    ensures means { IfOk result (λ p. PlanMeans (branch_in lists.now) depth p) }
    ensures front { IfOk result (λ p. HasFront (branch_in lists.now) agenda.new turns.now.items p) }
{
    match serve(lists, agenda, turns, depth) {
        None => Ok(Plan::Done),
        Some(turn) => {
            let work = universal(alloc, lists, turn.place)?;
            Ok(where_room(lists, work))
        }
    }
}

/// What comes next on the branch at the depth.
pub(crate) fn next_plan(
    alloc: Global,
    lists: &Lists,
    rules: &Rules,
    agenda: &mut Agenda,
    turns: &mut SegList<Turn>,
    depth: u32,
) -> Result<Plan, AllocError>
    requires reads { Reads (branch_in lists.now) lists.now }
    requires rules { rules.now ≡ lists.now.rules }
    requires agenda { IsAgenda (branch_in lists.now) agenda.old (born_in lists.now) turns.old.items }
    requires growing { turns.old.sealed ≡ false }
    ensures agenda { IsAgenda (branch_in lists.now) agenda.new (born_in lists.now) turns.new.items }
    ensures depth { agenda.new.depth ≡ depth }
    ensures growing { turns.new.sealed ≡ false }
    ensures means { IfOk result (λ p. PlanMeans (branch_in lists.now) depth p) }
    ensures front { IfOk result (λ p. HasFront (branch_in lists.now) agenda.new turns.new.items p) }
{
    *agenda = looked(*agenda, depth);
    if let Some(plan) = next_conjunctive(alloc, lists, rules, agenda, turns, depth)? {
        return Ok(plan);
    }
    if let Some(plan) = next_existential(alloc, lists, rules, agenda, turns, depth)? {
        return Ok(plan);
    }
    // Before a split, so that neither side has to look for them again.
    join(lists, rules, agenda, turns)?;
    if let Some(plan) = next_split(lists, rules, agenda, turns, depth) {
        return Ok(plan);
    }
    next_universal(alloc, lists, agenda, turns, depth)
}
