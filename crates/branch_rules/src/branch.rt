//! A branch of the tableau.
use crate::held::Held;
use crate::step::Done;
use containers::Shared;
use free_terms::Name;
use rewrite_rules::Rules;
use seg_list::SegList;
use std::marker::Model;

/// A universal entry's turn: the number of the step with which it joined the queue, and how often it was used before.
#[derive(Clone, Copy)]
pub struct Turn {
    pub joined: u32,
    pub place: u32,
    pub uses: u32,
}

/// The segment at the end of a branch, and how many metavariables and Skolem symbols it has made; the splits of the
/// branch.
#[derive(Clone, Copy)]
pub struct Counts {
    pub segment: u128,
    pub metavars: u32,
    pub skolems: u32,
    pub splits: u32,
}

/// How far the branch was searched at a depth.
#[derive(Clone, Copy)]
pub struct Agenda {
    pub depth: u32,
    /// The places before which no entry of the class is pending.
    pub conjunctive: u32,
    pub existential: u32,
    pub disjunctive: u32,
    /// The universal entries before the place have joined the queue.
    pub universal: u32,
    /// The turns before the number are over.
    pub turn: u32,
    /// From the place on no conjunctive formula and no literal was taken.
    pub untaken: u32,
    /// From the number on each turn's entry still waits for it.
    pub waiting: u32,
}

/// What was done on a branch, and what is read off it. The lists grow at their ends.
#[derive(Drop)]
pub struct Lists {
    pub rules: Shared<Rules>,
    /// How many entries are those of the start list.
    pub start: u32,
    pub entries: SegList<Held>,
    pub steps: SegList<Done>,
    pub metavars: SegList<Name>,
    pub counts: Counts,
}

/// A branch of the tableau. The two branches of a split share what stood above it, so a split takes the same time and
/// memory however long the branch is.
#[derive(Drop)]
pub struct Branch {
    pub(crate) lists: Lists,
    pub(crate) agenda: Agenda,
    /// The queue of universal entries, with the turns that are over.
    pub(crate) turns: SegList<Turn>,
    /// The place that is ready to split.
    pub(crate) ready: Option<u32>,
}

impl Model for Branch {
    ghost use Rattle.branch_rules.specs.BranchValue.{BranchValue, branch_code};

    ghost Value = { BranchValue };

    ghost coded = { branch_code };

    ghost use Rattle.branch_rules.specs.BranchView.{value_of, IsKept};

    ghost view = { value_of };

    ghost invariant = { IsKept };
}
