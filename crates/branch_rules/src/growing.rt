//! The lists of a branch grow by a step.

ghost use Rattle.std.specs.Prelude.{◌≡◌, ◌≤◌, ◌++◌, suc, false, length, OnOk, OnErr};
ghost use Rattle.branch_rules.specs.BranchView.{AreOpen};
ghost use Rattle.branch_rules.specs.ListsGrown.{held_at, names_by, turns_by, IsGrown, IsLonger, AreLonger};

use crate::branch::{Counts, Lists, Turn};
use crate::held::{Entry, Held};
use crate::lists::push;
use crate::step::{Done, TabKind};
use free_terms::{FFormula, FFormulas, Name};
use seg_list::SegList;
use std::alloc::AllocError;

/// Appends the formulas as entries of the level that the step of the number appended. On Err some of them are.
pub(crate) fn push_entries(
    entries: &mut SegList<Held>,
    parts: &[FFormula],
    level: u32,
    number: u32,
) -> Result<(), AllocError>
    requires { entries.old.sealed ≡ false }
    ensures ok { OnOk result (entries.new.items ≡ entries.old.items ++ held_at level number parts.now) }
    ensures longer { IsLonger entries.old entries.new }
{
    for part in parts {
        let formula = part.copy()?;
        push(
            entries,
            Held {
                entry: Entry { formula, level },
                born: number,
            },
        )?;
    }
    Ok(())
}

/// Appends the metavariable that the step introduces, if it does.
fn push_name(metavars: &mut SegList<Name>, done: &Done) -> Result<(), AllocError>
    requires { metavars.old.sealed ≡ false }
    ensures ok { OnOk result (metavars.new.items ≡ metavars.old.items ++ names_by done.now) }
    ensures longer { IsLonger metavars.old metavars.new }
{
    match done {
        Done::Step(_, kind) => match kind {
            TabKind::Instance(name) => push(metavars, *name),
            TabKind::Alpha => Ok(()),
            TabKind::Rewrite(_) => Ok(()),
            TabKind::Skolem(_) => Ok(()),
        },
        Done::Left(_) => Ok(()),
        Done::Right(_) => Ok(()),
    }
}

/// Appends the turn of an entry that the step uses, if it does.
fn push_turn(
    turns: &mut SegList<Turn>,
    done: &Done,
    joined: u32,
    uses: u32,
) -> Result<(), AllocError>
    requires { turns.old.sealed ≡ false }
    ensures ok { OnOk result (turns.new.items ≡ turns.old.items ++ turns_by done.now joined uses) }
    ensures longer { IsLonger turns.old turns.new }
{
    match done {
        Done::Step(place, kind) => match kind {
            TabKind::Instance(_) => push(
                turns,
                Turn {
                    joined,
                    place: *place,
                    uses,
                },
            ),
            TabKind::Alpha => Ok(()),
            TabKind::Rewrite(_) => Ok(()),
            TabKind::Skolem(_) => Ok(()),
        },
        Done::Left(_) => Ok(()),
        Done::Right(_) => Ok(()),
    }
}

/// Appends the formulas at the level by the step of the number. On Err some lists may have more at their ends.
fn extend(
    lists: &mut Lists,
    turns: &mut SegList<Turn>,
    done: Done,
    number: u32,
    level: u32,
    parts: &FFormulas,
    uses: u32,
) -> Result<(), AllocError>
    requires number { number ≡ suc (length lists.old.steps.items) }
    requires growing { AreOpen lists.old }
    requires queue { turns.old.sealed ≡ false }
    ensures ok { OnOk result (IsGrown lists.old lists.new turns.old.items turns.new.items done level parts.now uses) }
    ensures longer { AreLonger lists.old lists.new turns.old turns.new }
{
    let metavars = push_name(&mut lists.metavars, &done);
    let queue = push_turn(turns, &done, number, uses);
    let entries = push_entries(&mut lists.entries, parts.as_slice(), level, number);
    let steps = push(&mut lists.steps, done);
    metavars?;
    queue?;
    entries?;
    steps
}

/// Appends the formulas at the level by the step. On Err nothing is done.
pub(crate) fn grow(
    lists: &mut Lists,
    turns: &mut SegList<Turn>,
    done: Done,
    level: u32,
    parts: FFormulas,
    uses: u32,
    counts: Counts,
) -> Result<(), AllocError>
    requires growing { AreOpen lists.old }
    requires queue { turns.old.sealed ≡ false }
    ensures ok { OnOk result (IsGrown lists.old lists.new turns.old.items turns.new.items done level parts uses) }
    ensures counts { OnOk result (lists.new.counts ≡ counts) }
    ensures err { OnErr result (lists.new ≡ lists.old) }
    ensures queue { OnErr result (turns.new ≡ turns.old) }
{
    let entries = lists.entries.len();
    let steps = lists.steps.len();
    let metavars = lists.metavars.len();
    let waiting = turns.len();
    if steps == u32::MAX {
        return Err(AllocError);
    }
    let grown = extend(lists, turns, done, steps + 1, level, &parts, uses);
    if grown.is_err() {
        lists.entries.truncate(entries);
        lists.steps.truncate(steps);
        lists.metavars.truncate(metavars);
        turns.truncate(waiting);
        return Err(AllocError);
    }
    lists.counts = counts;
    Ok(())
}
