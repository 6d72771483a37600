//! The pool: workers, each in a thread of its own, that visit the nodes of a round and share what is to be visited.
#![tactic(auto)]

mod crew;
mod desk;
mod ending;
mod entry;
pub mod gate;
pub mod outcome;
pub mod pool;
mod rule;
#[cfg(test)]
mod tests;
mod working;
