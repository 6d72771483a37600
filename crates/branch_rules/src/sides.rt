//! A split is done.

ghost use Rattle.std.specs.Prelude.{◌≡◌, ◌<◌, Some, IfOk};
ghost use Rattle.branch_rules.specs.BranchValue.{done_of};
ghost use Rattle.branch_rules.specs.Steps.{IsAfter, AreHalves};
ghost use Rattle.branch_rules.specs.Halves.{side_of, IsSide};
ghost use Rattle.branch_rules.specs.Taken.{past_disjunctive};

use crate::branch::{Agenda, Branch, Counts};
use crate::forking::{forked, half_of};
use crate::growing::grow;
use crate::lists::{entry_at, place_in};
use crate::parts::{left_side, right_side};
use crate::step::Done;
use free_terms::FFormulas;
use std::alloc::{AllocError, Global};

/// The counts of a side of a split, in the segment of this name.
fn side_counts(counts: Counts, segment: u128) -> Counts
    requires { counts.splits < 120 }
    ensures { result ≡ side_of counts segment }
{
    Counts {
        segment,
        metavars: 0,
        skolems: 0,
        splits: counts.splits + 1,
    }
}

/// The agenda after a split of the entry at the place.
fn side_agenda(agenda: Agenda, place: u32) -> Agenda
    requires { place < 4294967295 }
    ensures { result ≡ past_disjunctive agenda place }
{
    let mut agenda = agenda;
    agenda.disjunctive = place + 1;
    agenda
}

/// One side of the split at the place, with these parts.
fn side(
    branch: &Branch,
    done: Done,
    level: u32,
    parts: FFormulas,
    segment: u128,
) -> Result<Branch, AllocError>
    requires { IsSide branch.now done level parts segment }
    ensures { IfOk result (λ side. IsAfter branch.now (done_of done) side) }
{
    let counts = side_counts(branch.lists.counts, segment);
    let agenda = side_agenda(branch.agenda, place_in(&done));
    let mut lists = forked(&branch.lists)?;
    let mut turns = half_of(&branch.turns)?;
    grow(&mut lists, &mut turns, done, level, parts, 0, counts)?;
    Ok(Branch {
        lists,
        agenda,
        turns,
        ready: None,
    })
}

/// The left and the right branch of the split that is ready.
pub fn halves(alloc: Global, branch: &Branch, place: u32) -> Result<(Branch, Branch), AllocError>
    requires { branch.now.ready ≡ Some place }
    ensures { IfOk result (λ two. AreHalves branch.now place two.0 two.1) }
{
    let entry = entry_at(&branch.lists, place);
    let segment = 2 * branch.lists.counts.segment;
    let parts = left_side(alloc, &entry.formula)?;
    let left = side(branch, Done::Left(place), entry.level, parts, segment)?;
    let parts = right_side(alloc, &entry.formula)?;
    let right = side(branch, Done::Right(place), entry.level, parts, segment + 1)?;
    Ok((left, right))
}
