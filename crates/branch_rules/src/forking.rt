//! The lists of a branch before and after a split.

ghost use Rattle.std.specs.Prelude.{◌≡◌, false, IsTrue, IfOk, OnOk};
ghost use Rattle.branch_rules.specs.BranchView.{HoldSame, AreOpen, AreSealed};

use crate::branch::{Lists, Turn};
use seg_list::SegList;
use std::alloc::AllocError;

/// One of the two lists that go on from a sealed one.
pub(crate) fn half_of<T: Drop>(list: &SegList<T>) -> Result<SegList<T>, AllocError>
    requires { IsTrue list.now.sealed }
    ensures items { IfOk result (λ half. half.items ≡ list.now.items) }
    ensures growing { IfOk result (λ half. half.sealed ≡ false) }
{
    let (half, _) = list.fork()?;
    Ok(half)
}

/// Lists that go on from those of a branch that is ready to split.
pub(crate) fn forked(lists: &Lists) -> Result<Lists, AllocError>
    requires entries { IsTrue lists.now.entries.sealed }
    requires steps { IsTrue lists.now.steps.sealed }
    requires metavars { IsTrue lists.now.metavars.sealed }
    ensures same { IfOk result (λ l. HoldSame lists.now l) }
    ensures growing { IfOk result (λ l. AreOpen l) }
{
    Ok(Lists {
        rules: lists.rules.copy()?,
        start: lists.start,
        entries: half_of(&lists.entries)?,
        steps: half_of(&lists.steps)?,
        metavars: half_of(&lists.metavars)?,
        counts: lists.counts,
    })
}

/// Makes the list one that grows. On Err it is unchanged.
fn open_one<T: Drop>(list: &mut SegList<T>) -> Result<(), AllocError>
    ensures items { list.new.items ≡ list.old.items }
    ensures growing { OnOk result (list.new.sealed ≡ false) }
{
    if list.is_sealed() {
        *list = half_of(list)?;
    }
    Ok(())
}

/// Makes the lists ones that grow. They are sealed where memory was wanting to make a place ready.
pub(crate) fn open_all(lists: &mut Lists, turns: &mut SegList<Turn>) -> Result<(), AllocError>
    ensures same { HoldSame lists.old lists.new }
    ensures queue_items { turns.new.items ≡ turns.old.items }
    ensures growing { OnOk result (AreOpen lists.new) }
    ensures queue { OnOk result (turns.new.sealed ≡ false) }
{
    open_one(&mut lists.entries)?;
    open_one(&mut lists.steps)?;
    open_one(&mut lists.metavars)?;
    open_one(turns)
}

/// The list, sealed if memory was not wanting, and whether it is.
fn seal_one<T: Drop>(list: SegList<T>) -> (SegList<T>, bool)
    ensures items { result.0.items ≡ list.items }
    ensures sealed { IsTrue result.1 → IsTrue result.0.sealed }
{
    match list.seal() {
        Ok(list) => (list, true),
        Err(list) => (list, false),
    }
}

/// Lists that were to be sealed, and whether all are.
#[derive(Drop)]
pub struct Sealing {
    pub lists: Lists,
    pub turns: SegList<Turn>,
    pub is_sealed: bool,
}

pub(crate) fn seal_all(lists: Lists, turns: SegList<Turn>) -> Sealing
    ensures same { HoldSame lists result.lists }
    ensures queue { result.turns.items ≡ turns.items }
    ensures sealed { IsTrue result.is_sealed → AreSealed result.lists result.turns }
{
    let Lists {
        rules,
        start,
        entries,
        steps,
        metavars,
        counts,
    } = lists;
    let (entries, entries_sealed) = seal_one(entries);
    let (steps, steps_sealed) = seal_one(steps);
    let (metavars, metavars_sealed) = seal_one(metavars);
    let (turns, turns_sealed) = seal_one(turns);
    Sealing {
        lists: Lists {
            rules,
            start,
            entries,
            steps,
            metavars,
            counts,
        },
        turns,
        is_sealed: entries_sealed && steps_sealed && metavars_sealed && turns_sealed,
    }
}
