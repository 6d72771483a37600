//! A search that a run is to make.

use containers::Shared;
use deepening::{Limits, Way};
use fof_parse::Problem;
use goeland_words::ProveWords;
use rewrite_rules::Rules;

/// What is to be told of a search.
#[derive(Drop)]
pub(crate) enum Telling {
    /// What the words of `prove` ask for.
    Outcome(ProveWords),
    /// The line of the bench, on problem `n` with a text of so many bytes.
    Line { n: u32, bytes: u64 },
}

/// A search that a run is to make, and what is to be told of it.
#[derive(Drop)]
pub(crate) struct Job {
    pub(crate) problem: Shared<Problem>,
    pub(crate) rules: Shared<Rules>,
    pub(crate) limits: Limits,
    pub(crate) way: Way,
    pub(crate) telling: Telling,
}
