//! What the words of `prove` ask for.

use crate::text::Text;

/// The picks of a board.
#[derive(Clone, Copy, Debug, PartialEq, Eq)]
pub struct Schedule {
    /// Where the generator starts.
    pub seed: u64,
    /// How many picks each round begins with, at most 1,000,000.
    pub turns: u32,
}

/// The problem's name, and a field for each option.
#[derive(Debug, Drop)]
pub struct ProveWords {
    /// The name of the problem's text; `-` is the standard input.
    pub file: Text,
    /// The greatest depth that is searched, from 1 to 64.
    pub depth: u32,
    /// How many workers search, from 1 to 64.
    pub workers: u32,
    /// The limit of tries of each round, if there is one.
    pub tries: Option<u64>,
    /// The greatest length of the proof's text, in bytes.
    pub proof_bytes: u64,
    /// Whether axioms that are equivalences rewrite literals.
    pub rewrite: bool,
    /// Whether the history of each node is printed.
    pub history: bool,
    /// The picks with which each round begins, if there are any.
    pub schedule: Option<Schedule>,
}
