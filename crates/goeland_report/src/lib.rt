//! What a run prints of its outcome: the status, why it gave up, the histories where they are asked for, and the proof.
#![tactic(auto)]

mod cause;
mod found;
mod lines;
mod reports;

pub use cause::{BenchResult, Cause};
pub use found::{Found, NodeLines, Reason, Report};
pub use reports::{bench_report, gave_up_report, proof_report};

#[cfg(test)]
mod tests;
