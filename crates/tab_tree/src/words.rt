//! The words in which a run tells how a round ended.

/// What settled a round.
#[derive(Clone, Copy, Debug, PartialEq, Eq)]
pub enum Engine {
    Plain,
    Agents,
    Board,
}

/// What the walk for an open branch answers.
#[derive(Clone, Copy, Debug, PartialEq, Eq)]
pub enum OpenAnswer {
    /// The name of the first open leaf.
    Branch(u128),
    /// There is none.
    Conflict,
    /// The walk was cut, and there is none before.
    Unsearched,
}
