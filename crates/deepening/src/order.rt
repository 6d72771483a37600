//! In what way the rounds of a search are settled.

/// In what order one thread visits the nodes of a round.
#[derive(Clone, Copy, Debug, PartialEq, Eq)]
pub enum Order {
    /// One node's answer after the other.
    Plain,
    /// First so many picks of a generator that begins with the seed, anew in each round. Where they leave the root
    /// without an answer, the round is settled by the plain order on nodes of its own.
    Scheduled { seed: u64, turns: u32 },
}

/// In what way the rounds of a search are settled.
#[derive(Clone, Copy, Debug, PartialEq, Eq)]
pub enum Way {
    /// By the calling thread, in that order.
    Alone(Order),
    /// By so many workers, whose visits of the nodes come in any order.
    Agents(u32),
}
