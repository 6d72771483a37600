//! Where the walk over a closed tree stands, and the steps that it writes.

ghost use Rattle.std.specs.Prelude.{◌≡◌, ◌+◌, ◌≤◌, ◌++◌, ◌∷◌, [], IfErr, OnOk};
ghost use Rattle.translation.specs.Translation as spec;
ghost use Rattle.translation.specs.Translation.{run_of};
ghost use Rattle.deskolem.specs.Lines.{HasRoom};
ghost use Rattle.deskolem.specs.Walking.{IsStanding, Moves, Refuses};

use crate::answer::GsError;
use crate::line::{Line, Lines};
use std::alloc::AllocError;

/// Where the walk stands.
#[derive(Drop)]
pub(crate) struct Walk {
    /// Where each entry of the branch stands in the proof's list.
    pub places: Vec<u32>,
    /// How many formulas the proof's list has.
    pub len: u32,
    /// How many steps more there may be.
    pub left: u32,
    /// The steps so far.
    pub lines: Lines,
}

/// The place in the proof's list of an entry of the branch.
pub(crate) fn place_in(places: &[u32], entry: u32) -> u32
    ensures { result ≡ spec.place_in places.now entry }
{
    match places.get(entry as usize) {
        Some(place) => *place,
        None => 0,
    }
}

/// Adds a line that stands for so many steps, and Bytes exactly where so many are too many.
pub(crate) fn put(walk: &mut Walk, line: Line, steps: u32) -> Result<(), GsError>
    ensures lines { OnOk result (walk.new.lines ≡ walk.old.lines ++ line ∷ []) }
    ensures left { OnOk result (walk.new.left + steps ≡ walk.old.left) }
    ensures refused { IfErr result (λ e. Refuses walk.old.left steps e) }
    ensures places { walk.new.places.items ≡ walk.old.places.items }
    ensures len { walk.new.len ≡ walk.old.len }
    ensures fewer { walk.new.left ≤ walk.old.left }
{
    if steps > walk.left {
        return Err(GsError::Bytes);
    }
    walk.lines.push(line)?;
    walk.left -= steps;
    Ok(())
}

/// The branch's next entry stands at this place of the proof's list.
pub(crate) fn stand(walk: &mut Walk, place: u32) -> Result<(), AllocError>
    ensures places { OnOk result (walk.new.places.items ≡ walk.old.places.items ++ place ∷ []) }
    ensures lines { walk.new.lines ≡ walk.old.lines }
    ensures left { walk.new.left ≡ walk.old.left }
    ensures len { walk.new.len ≡ walk.old.len }
{
    walk.places.push(place)?;
    Ok(())
}

/// The branch's next entries stand at the end of the proof's list.
pub(crate) fn append(walk: &mut Walk, entries: u32) -> Result<(), AllocError>
    requires { walk.old.len + entries ≤ 4294967295 }
    ensures places { OnOk result (walk.new.places.items ≡ walk.old.places.items ++ run_of walk.old.len entries) }
    ensures len { OnOk result (walk.new.len ≡ walk.old.len + entries) }
    ensures lines { walk.new.lines ≡ walk.old.lines }
    ensures left { walk.new.left ≡ walk.old.left }
{
    let first = walk.len;
    for i in 0..entries {
        stand(walk, first + i)?;
    }
    walk.len = first + entries;
    Ok(())
}

/// Adds the line of one step, with which the branch's next entries stand at the end of the proof's list.
pub(crate) fn write(walk: &mut Walk, line: Line, entries: u32) -> Result<(), GsError>
    requires standing { IsStanding walk.old }
    requires room { HasRoom line }
    requires few { entries ≤ 2 }
    ensures moves { OnOk result (Moves walk.old walk.new line 1
        (run_of walk.old.len entries) (walk.old.len + entries)) }
    ensures standing { OnOk result (IsStanding walk.new) }
    ensures refused { IfErr result (λ e. Refuses walk.old.left 1 e) }
{
    match put(walk, line, 1) {
        Ok(()) => {}
        Err(e) => return Err(e),
    }
    append(walk, entries)?;
    Ok(())
}
