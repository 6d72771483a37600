//! The lists of a branch: what stands at a place, and how they grow.

ghost use Rattle.std.specs.Prelude.{◌≡◌, ◌<◌, ◌≤◌, false, length, slice_get, Some, OnOk, OnErr, IfOk};
ghost use Rattle.seg_list.specs.Branching.{with_item};
ghost use Rattle.branch_rules.specs.Branch.{entries, takes, times_taken};
ghost use Rattle.branch_rules.specs.Next.{most_entries};
ghost use Rattle.branch_rules.specs.BranchValue.{entry_of};
ghost use Rattle.branch_rules.specs.BranchView.{branch_in, Reads};
ghost use Rattle.branch_rules.specs.ListsGrown.{place_of, IsLonger};

use crate::branch::Lists;
use crate::held::{Entry, Held};
use crate::step::Done;
use seg_list::SegList;
use std::alloc::AllocError;

/// The item at a place of the list.
pub(crate) fn item_at<T>(list: &SegList<T>, place: u32) -> &T
    requires { place < length list.now.items }
    ensures { slice_get list.now.items place ≡ Some result.now }
{
    match list.get(place) {
        Some(item) => item,
        None => unreachable!(),
    }
}

/// Adds an item at the end of the list. On Err the list is unchanged.
pub(crate) fn push<T: Drop>(list: &mut SegList<T>, item: T) -> Result<(), AllocError>
    requires { list.old.sealed ≡ false }
    ensures ok { OnOk result (list.new ≡ with_item list.old item) }
    ensures err { OnErr result (list.new ≡ list.old) }
    ensures longer { IsLonger list.old list.new }
{
    if list.len() == u32::MAX {
        return Err(AllocError);
    }
    match list.push(item) {
        Ok(()) => Ok(()),
        Err(_) => Err(AllocError),
    }
}

/// A length as a number of 32 bits. No list of formulas that fits in memory is longer.
pub(crate) fn small(n: usize) -> Result<u32, AllocError>
    ensures value { IfOk result (λ m. m ≡ n) }
    ensures few { IfOk result (λ m. m ≤ most_entries) }
{
    if n <= u32::MAX as usize {
        Ok(n as u32)
    } else {
        Err(AllocError)
    }
}

/// The entry at a place of the branch.
pub(crate) fn entry_at(lists: &Lists, place: u32) -> &Entry
    requires reads { Reads (branch_in lists.now) lists.now }
    requires within { place < length lists.now.entries.items }
    ensures { slice_get (entries (branch_in lists.now)) place ≡ Some (entry_of result.now) }
{
    let held = item_at(&lists.entries, place);
    &held.entry
}

/// The place of the step's principal entry.
pub(crate) fn place_in(done: &Done) -> u32
    ensures { result ≡ place_of done.now }
{
    match done {
        Done::Step(place, _) => *place,
        Done::Left(place) => *place,
        Done::Right(place) => *place,
    }
}

/// Whether the step of the number took the entry at the place.
fn takes(lists: &Lists, number: u32, place: u32) -> bool
    ensures { result ≡ takes (slice_get (branch_in lists.now).steps number) place }
{
    match lists.steps.get(number) {
        Some(done) => place_in(done) == place,
        None => false,
    }
}

/// How often the steps took the entry at the place. It goes through all steps, and is called only where the depth has
/// changed.
pub(crate) fn times_taken(lists: &Lists, place: u32) -> u32
    ensures { result ≡ times_taken (branch_in lists.now) place }
{
    let mut times = 0;
    for n in 0..lists.steps.len() {
        if takes(lists, n, place) {
            times += 1;
        }
    }
    times
}
