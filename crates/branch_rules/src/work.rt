//! What is to be done next.
use crate::step::{TabKind, TabStep};
use free_terms::FFormulas;

/// A step that is to be done: its principal entry's place and what it appends, at this level.
#[derive(Drop)]
pub struct Work {
    pub place: u32,
    pub kind: TabKind,
    pub level: u32,
    pub parts: FFormulas,
}

/// What comes next.
#[derive(Drop)]
pub enum Plan {
    Done,
    Step(Work),
    Split(u32),
}

/// What came of the search for the next step.
#[derive(Drop)]
pub enum Outcome {
    /// There is none.
    Done,
    /// It was done.
    One(TabStep),
    /// It is a split of the entry at the place.
    Splits(u32),
}
