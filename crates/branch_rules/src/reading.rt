//! The entries of a branch.

ghost use Rattle.std.specs.Prelude.{◌≡◌, length, slice_get, option_map};
ghost use Rattle.std.specs.Option.{option_copied};
ghost use Rattle.branch_rules.specs.Branch.{entries};
ghost use Rattle.branch_rules.specs.BranchValue.{entry_of, branch_of};

use crate::branch::Branch;
use crate::held::Entry;
use containers::Shared;
use rewrite_rules::Rules;

/// The number of entries. It takes no memory.
pub fn len(branch: &Branch) -> u32
    ensures { result ≡ length (entries (branch_of branch.now)) }
{
    branch.lists.entries.len()
}

/// The entry at the place, and None exactly where the branch ends before it. It takes no memory.
pub fn entry(branch: &Branch, place: u32) -> Option<&Entry>
    ensures { option_map entry_of (option_copied result) ≡ slice_get (entries (branch_of branch.now)) place }
{
    match branch.lists.entries.get(place) {
        Some(held) => Some(&held.entry),
        None => None,
    }
}

/// The rules that the branch was started with. It takes no memory.
pub fn rules(branch: &Branch) -> &Shared<Rules>
    ensures { result.now ≡ branch.now.rules }
{
    &branch.lists.rules
}
