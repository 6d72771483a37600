//! The queue of universal entries.

ghost use Rattle.std.specs.Prelude.{◌≡◌, ◌<◌, ◌↔◌, false, length, IsTrue, IfOk};
ghost use Rattle.branch_rules.specs.Branch.{entries};
ghost use Rattle.branch_rules.specs.BranchView.{branch_in, born_in, Reads, IsOpen, IsAgenda};
ghost use Rattle.branch_rules.specs.Plans.{Serving};

use crate::branch::{Agenda, Lists, Turn};
use crate::finding::is_free;
use crate::kinds::Kind;
use crate::lists::{item_at, push, times_taken};
use rewrite_rules::Rules;
use seg_list::SegList;
use std::alloc::AllocError;

/// The universal entries that have not joined the queue do so.
pub(crate) fn join(
    lists: &Lists,
    rules: &Rules,
    agenda: &mut Agenda,
    turns: &mut SegList<Turn>,
) -> Result<(), AllocError>
    requires reads { Reads (branch_in lists.now) lists.now }
    requires rules { rules.now ≡ lists.now.rules }
    requires agenda { IsAgenda (branch_in lists.now) agenda.old (born_in lists.now) turns.old.items }
    requires growing { turns.old.sealed ≡ false }
    ensures agenda { IsAgenda (branch_in lists.now) agenda.new (born_in lists.now) turns.new.items }
    ensures depth { agenda.new.depth ≡ agenda.old.depth }
    ensures growing { turns.new.sealed ≡ false }
    ensures all { IfOk result (λ _. agenda.new.universal ≡ length (entries (branch_in lists.now))) }
{
    for i in agenda.universal..lists.entries.len() {
        if is_free(lists, rules, Kind::Universal, i) {
            let joined = item_at(&lists.entries, i).born;
            push(
                turns,
                Turn {
                    joined,
                    place: i,
                    uses: 0,
                },
            )?;
        }
        agenda.universal = i + 1;
    }
    Ok(())
}

/// Whether the entry waits for the turn, and may be used once more at the depth.
fn is_served(lists: &Lists, turn: Turn, waits: bool, depth: u32) -> bool
    requires { IsTrue waits → IsOpen (branch_in lists.now) turn }
    ensures { IsTrue result ↔ (IsOpen (branch_in lists.now) turn × (turn.uses < depth)) }
{
    if turn.uses >= depth {
        return false;
    }
    if waits {
        return true;
    }
    times_taken(lists, turn.place) == turn.uses
}

/// The turn whose entry is served.
pub(crate) fn serve(
    lists: &Lists,
    agenda: &mut Agenda,
    turns: &SegList<Turn>,
    depth: u32,
) -> Option<Turn>
    requires reads { Reads (branch_in lists.now) lists.now }
    requires agenda { IsAgenda (branch_in lists.now) agenda.old (born_in lists.now) turns.now.items }
    requires depth { agenda.old.depth ≡ depth }
    ensures agenda { IsAgenda (branch_in lists.now) agenda.new (born_in lists.now) turns.now.items }
    ensures depth { agenda.new.depth ≡ depth }
    ensures kept { agenda.new.universal ≡ agenda.old.universal }
    ensures serves { Serving (branch_in lists.now) depth turns.now.items agenda.new.turn result }
{
    for n in agenda.turn..turns.len() {
        let turn = *item_at(turns, n);
        if is_served(lists, turn, agenda.waiting <= n, depth) {
            return Some(turn);
        }
        agenda.turn = n + 1;
    }
    None
}
