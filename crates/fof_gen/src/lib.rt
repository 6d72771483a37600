//! Problems of rising size, to measure a prover by.
#![tactic(auto)]

mod making;

pub use making::make_problem;

#[cfg(test)]
mod tests;
