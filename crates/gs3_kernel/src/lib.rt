//! Checking a GS3 proof.
#![tactic(auto)]

mod checking;
mod open;

pub use checking::{CheckError, check, check_steps};

#[cfg(test)]
mod tests;
