//! What a step on an entry appends, and whether there is room for it.

ghost use Rattle.std.specs.Prelude.{◌≡◌, suc, ◌+◌, ◌<◌, ◌≤◌, ◌↔◌, ℕ, List, length, map, IsTrue, IfOk};
ghost use Rattle.free_terms.specs.Free.{terms_of_list, metavar, skolem, HoldsNoBound};
ghost use Rattle.free_terms.specs.View.{name_of, term_of, terms_of, formula_of};
ghost use Rattle.fol_core.specs.Syntax.{not};
ghost use Rattle.gs3_rules.specs.Rules.{beta_parts};
ghost use Rattle.branch_rules.specs.Branch.{Branch, left_part, entries, skolemize, instantiate};
ghost use Rattle.branch_rules.specs.Branch.{next_skolem, next_metavar};
ghost use Rattle.branch_rules.specs.Next.{most_entries};
ghost use Rattle.branch_rules.specs.BranchView.{branch_in, Reads, IsAgenda};
ghost use Rattle.branch_rules.specs.Plans.{WorksAt, RoomAnswer};
ghost use Rattle.branch_rules.specs.declared.branch.Turn.{Turn as Seat};

use crate::branch::{Agenda, Lists};
use crate::lists::{entry_at, item_at};
use crate::parts::{instance_of, witness};
use crate::step::TabKind;
use crate::work::{Plan, Work};
use containers::{Items, Shared};
use free_terms::{FFormula, FTerm, Name};
use seg_list::SegList;
use std::alloc::{AllocError, Global};

fn side_length_of_not(f: &FFormula) -> usize
    ensures { result ≡ length (left_part (beta_parts (not (formula_of f.now)))) }
{
    match f {
        FFormula::And(..) => 1,
        FFormula::Iff(..) => 2,
        FFormula::Atom(..) | FFormula::Verum | FFormula::Falsum | FFormula::Not(_) => 0,
        FFormula::Or(..) | FFormula::Imp(..) | FFormula::All(_) | FFormula::Ex(_) => 0,
    }
}

/// How many entries each side of a disjunctive formula has, and 0 of any other.
pub(crate) fn side_length(f: &FFormula) -> usize
    ensures { result ≡ length (left_part (beta_parts (formula_of f.now))) }
{
    match f {
        FFormula::Or(..) | FFormula::Imp(..) => 1,
        FFormula::Iff(..) => 2,
        FFormula::Not(a) => side_length_of_not(a.get()),
        FFormula::Atom(..) | FFormula::Verum | FFormula::Falsum => 0,
        FFormula::And(..) | FFormula::All(_) | FFormula::Ex(_) => 0,
    }
}

/// Each of these metavariables as a term.
fn metavar_terms(alloc: Global, names: &SegList<Name>) -> Result<Items<FTerm>, AllocError>
    ensures { IfOk result (λ ts. terms_of ts ≡ terms_of_list (map metavar (map name_of names.now.items))) }
{
    let mut out = Items::new(alloc);
    for i in 0..names.len() {
        out.push(FTerm::Meta(*item_at(names, i)))?;
    }
    Ok(out)
}

/// What is kept of an agenda at a depth.
pub(crate) fn looked(agenda: Agenda, depth: u32) -> Agenda
    ensures depth { result.depth ≡ depth }
    ensures kept { (b : Branch) (born : List ℕ) (turns : List Seat) → IsAgenda b agenda born turns
        → IsAgenda b result born turns }
{
    if agenda.depth == depth {
        return agenda;
    }
    Agenda {
        depth,
        conjunctive: 0,
        existential: agenda.existential,
        disjunctive: agenda.disjunctive,
        universal: agenda.universal,
        turn: 0,
        untaken: agenda.untaken,
        waiting: agenda.waiting,
    }
}

/// Whether so many more entries are not too many.
pub(crate) fn has_room(lists: &Lists, more: usize) -> bool
    requires { Reads (branch_in lists.now) lists.now }
    ensures { IsTrue result ↔ (length (entries (branch_in lists.now)) + more ≤ most_entries) }
{
    more <= (u32::MAX - lists.entries.len()) as usize
}

/// The step, where there is room for what it appends.
pub(crate) fn where_room(lists: &Lists, work: Work) -> Plan
    requires { Reads (branch_in lists.now) lists.now }
    ensures { RoomAnswer (branch_in lists.now) work result }
{
    if has_room(lists, work.parts.len()) {
        Plan::Step(work)
    } else {
        Plan::Done
    }
}

/// The next name of a segment that has made so many.
fn next_name(segment: u128, made: u32) -> Result<Name, AllocError>
    ensures { IfOk result (λ x. name_of x ≡ record { segment = segment; count = suc made }) }
{
    let count = made.checked_add(1).ok_or(AllocError)?;
    Ok(Name { segment, count })
}

/// The Skolem term over these metavariables.
fn skolem_over(alloc: Global, name: Name, names: &SegList<Name>) -> Result<FTerm, AllocError>
    ensures value { IfOk result (λ t. term_of t
        ≡ skolem (name_of name) (terms_of_list (map metavar (map name_of names.now.items)))) }
    ensures closed { IfOk result (λ t. HoldsNoBound (term_of t)) }
{
    let args = metavar_terms(alloc, names)?;
    Ok(FTerm::Skolem(name, Shared::new(alloc, args)?))
}

/// The existential step on the entry at the place.
pub(crate) fn existential(alloc: Global, lists: &Lists, place: u32) -> Result<Work, AllocError>
    requires reads { Reads (branch_in lists.now) lists.now }
    requires within { place < length lists.now.entries.items }
    ensures { IfOk result (λ w. WorksAt (branch_in lists.now) place
        (skolemize place (next_skolem (branch_in lists.now))) w) }
{
    let name = next_name(lists.counts.segment, lists.counts.skolems)?;
    let term = skolem_over(alloc, name, &lists.metavars)?;
    let entry = entry_at(lists, place);
    let parts = witness(alloc, &entry.formula, &term)?;
    Ok(Work {
        place,
        kind: TabKind::Skolem(name),
        level: entry.level,
        parts,
    })
}

/// The universal step on the entry at the place.
pub(crate) fn universal(alloc: Global, lists: &Lists, place: u32) -> Result<Work, AllocError>
    requires reads { Reads (branch_in lists.now) lists.now }
    requires within { place < length lists.now.entries.items }
    ensures { IfOk result (λ w. WorksAt (branch_in lists.now) place
        (instantiate place (next_metavar (branch_in lists.now))) w) }
{
    let name = next_name(lists.counts.segment, lists.counts.metavars)?;
    let term = FTerm::Meta(name);
    let entry = entry_at(lists, place);
    let parts = instance_of(alloc, &entry.formula, &term)?;
    Ok(Work {
        place,
        kind: TabKind::Instance(name),
        level: entry.level,
        parts,
    })
}
