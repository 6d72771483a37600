//! The checker of GS3 proofs, from the names of a problem and a proof to the line that says what the proof is.
#![tactic(auto)]

mod law;
mod run;

pub use law::proofs_are_valid;
pub use run::{CheckStatus, check_run};

#[cfg(test)]
mod tests;
