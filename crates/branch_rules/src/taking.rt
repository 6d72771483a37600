//! A step within a segment is done.

ghost use Rattle.std.specs.Prelude.{◌≡◌, ◌<◌, ◌≤◌, ◌^◌, false, IfOk, OnErr};
ghost use Rattle.branch_rules.specs.BranchView.{branch_in, born_in, Reads, IsAgenda, AreOpen};
ghost use Rattle.branch_rules.specs.Plans.{PlanMeans, IsFront};
ghost use Rattle.branch_rules.specs.Taken.{counts_by, agenda_by, CountsUses, IsTaken};
ghost use Rattle.branch_rules.specs.declared.work.Plan.TheVariants.{Step as StepPlan};

use crate::branch::{Agenda, Counts, Lists, Turn};
use crate::growing::grow;
use crate::lists::{item_at, small};
use crate::step::{Done, TabKind, TabStep};
use crate::work::Work;
use seg_list::SegList;
use std::alloc::AllocError;

/// The counts after a step of the kind.
fn counts_after(counts: Counts, kind: &TabKind) -> Counts
    ensures { result ≡ counts_by counts kind.now }
{
    match kind {
        TabKind::Alpha => counts,
        TabKind::Rewrite(_) => counts,
        TabKind::Skolem(name) => Counts {
            segment: counts.segment,
            metavars: counts.metavars,
            skolems: name.count,
            splits: counts.splits,
        },
        TabKind::Instance(name) => Counts {
            segment: counts.segment,
            metavars: name.count,
            skolems: counts.skolems,
            splits: counts.splits,
        },
    }
}

/// The agenda after a step of the kind on the entry at the place: the search goes on behind it.
fn agenda_after(agenda: Agenda, kind: &TabKind, place: u32) -> Result<Agenda, AllocError>
    requires { place < 4294967295 }
    ensures { IfOk result (λ later. later ≡ agenda_by agenda kind.now place) }
{
    let mut agenda = agenda;
    match kind {
        TabKind::Alpha => {
            agenda.conjunctive = place + 1;
            agenda.untaken = agenda.untaken.max(place + 1);
        }
        TabKind::Rewrite(_) => {
            agenda.conjunctive = place + 1;
            agenda.untaken = agenda.untaken.max(place + 1);
        }
        TabKind::Skolem(_) => agenda.existential = place + 1,
        TabKind::Instance(_) => {
            let Some(turn) = agenda.turn.checked_add(1) else {
                return Err(AllocError);
            };
            agenda.turn = turn;
            agenda.waiting = agenda.waiting.max(turn);
        }
    }
    Ok(agenda)
}

/// How often the entry will have been used, where the step uses one. It is the entry whose turn it is.
fn uses_after(
    lists: &Lists,
    agenda: &Agenda,
    turns: &SegList<Turn>,
    kind: &TabKind,
    place: u32,
) -> Result<u32, AllocError>
    requires { IsFront (branch_in lists.now) agenda.now turns.now.items kind.now place }
    ensures { IfOk result (λ n. CountsUses (branch_in lists.now) kind.now place n) }
{
    match kind {
        TabKind::Instance(_) => {
            let turn = *item_at(turns, agenda.turn);
            let Some(uses) = turn.uses.checked_add(1) else {
                return Err(AllocError);
            };
            Ok(uses)
        }
        TabKind::Alpha => Ok(0),
        TabKind::Rewrite(_) => Ok(0),
        TabKind::Skolem(_) => Ok(0),
    }
}

/// Does the step. On Err it is not done.
pub(crate) fn take(
    lists: &mut Lists,
    agenda: &mut Agenda,
    turns: &mut SegList<Turn>,
    work: Work,
) -> Result<TabStep, AllocError>
    requires reads { Reads (branch_in lists.old) lists.old }
    requires agenda { IsAgenda (branch_in lists.old) agenda.old (born_in lists.old) turns.old.items }
    requires growing { AreOpen lists.old }
    requires queue { turns.old.sealed ≡ false }
    requires next { PlanMeans (branch_in lists.old) agenda.old.depth (StepPlan work) }
    requires front { IsFront (branch_in lists.old) agenda.old turns.old.items work.kind work.place }
    ensures reads { Reads (branch_in lists.new) lists.new }
    ensures agenda { IsAgenda (branch_in lists.new) agenda.new (born_in lists.new) turns.new.items }
    ensures ok { IfOk result (λ s. IsTaken lists.old lists.new work s) }
    ensures err { OnErr result (lists.new ≡ lists.old) }
{
    let appended = small(work.parts.len())?;
    let uses = uses_after(lists, agenda, turns, &work.kind, work.place)?;
    let counts = counts_after(lists.counts, &work.kind);
    let later = agenda_after(*agenda, &work.kind, work.place)?;
    let kind = work.kind.copy()?;
    let Work {
        place,
        kind: its_kind,
        level,
        parts,
    } = work;
    grow(
        lists,
        turns,
        Done::Step(place, its_kind),
        level,
        parts,
        uses,
        counts,
    )?;
    *agenda = later;
    Ok(TabStep {
        place,
        kind,
        appended,
    })
}
