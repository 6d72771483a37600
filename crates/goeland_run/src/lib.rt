//! Runs of the prover, from the words and the bytes that come in to the bytes that go out.
#![tactic(auto)]

mod answers;
mod decided;
mod deciding;
mod histories;
mod job;
mod limits;
mod planning;
mod printed;
mod printing;
mod status;
mod telling;
mod ways;

pub use printing::{run, run_alone};
pub use status::Status;

#[cfg(test)]
mod tests;
