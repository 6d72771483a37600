//! Rewriting steps of the tableau as steps of the calculus GS3.
#![tactic(auto)]

mod expanding;

pub use expanding::{Expanded, expand};

#[cfg(test)]
mod tests;
