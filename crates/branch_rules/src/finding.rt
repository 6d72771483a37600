//! The first entry of a kind.

ghost use Rattle.std.specs.Prelude.{◌≡◌, ◌<◌, ◌≤◌, ◌↔◌, length, slice_get, Some, IsTrue};
ghost use Rattle.branch_rules.specs.Branch.{Entry as Item, entries, times_taken};
ghost use Rattle.branch_rules.specs.Kinds.{kind_of};
ghost use Rattle.branch_rules.specs.BranchView.{branch_in, Reads};
ghost use Rattle.branch_rules.specs.Plans.{IsCandidate, IsFree, IsUntakenFrom, IsFirstUntakenFrom, FirstFree};

use crate::branch::Lists;
use crate::kinds::{Kind, in_first, kind_of};
use crate::lists::{entry_at, times_taken};
use rewrite_rules::{Rules, is_rule_axiom};

/// Whether the entry is of the kind, no step has taken it, and it gave no rule.
pub(crate) fn is_free(lists: &Lists, rules: &Rules, kind: Kind, i: u32) -> bool
    requires reads { Reads (branch_in lists.now) lists.now }
    requires rules { rules.now ≡ lists.now.rules }
    requires within { i < length lists.now.entries.items }
    requires untaken { (e : Item) → slice_get (entries (branch_in lists.now)) i ≡ Some e → kind_of e.formula ≡ kind
        → times_taken (branch_in lists.now) i ≡ 0 }
    ensures { IsTrue result ↔ IsFree (branch_in lists.now) kind i }
{
    let entry = entry_at(lists, i);
    let is_kind = kind_of(&entry.formula) == kind;
    if !is_kind {
        return false;
    }
    !is_rule_axiom(rules, i)
}

/// The first entry of the kind from the place on that no step has taken and that gave no rule.
pub(crate) fn find(lists: &Lists, rules: &Rules, kind: Kind, from: u32) -> Option<u32>
    requires reads { Reads (branch_in lists.now) lists.now }
    requires rules { rules.now ≡ lists.now.rules }
    requires untaken { IsUntakenFrom (branch_in lists.now) kind from }
    ensures { FirstFree (branch_in lists.now) kind from result }
{
    for i in from..lists.entries.len() {
        if is_free(lists, rules, kind, i) {
            return Some(i);
        }
    }
    None
}

/// Whether no step has taken the entry. Only an entry before the place `sure` may have been taken.
fn is_untaken(lists: &Lists, sure: u32, i: u32) -> bool
    requires { sure ≤ i → times_taken (branch_in lists.now) i ≡ 0 }
    ensures { IsTrue result ↔ (times_taken (branch_in lists.now) i ≡ 0) }
{
    if sure <= i {
        return true;
    }
    times_taken(lists, i) == 0
}

/// Whether a conjunctive step or a rewriting may serve the entry.
pub(crate) fn is_candidate(lists: &Lists, rules: &Rules, sure: u32, i: u32) -> bool
    requires reads { Reads (branch_in lists.now) lists.now }
    requires rules { rules.now ≡ lists.now.rules }
    requires within { i < length lists.now.entries.items }
    requires untaken { IsFirstUntakenFrom (branch_in lists.now) sure }
    ensures { IsTrue result ↔ IsCandidate (branch_in lists.now) i }
{
    let entry = entry_at(lists, i);
    if !in_first(kind_of(&entry.formula)) {
        return false;
    }
    if is_rule_axiom(rules, i) {
        return false;
    }
    is_untaken(lists, sure, i)
}
