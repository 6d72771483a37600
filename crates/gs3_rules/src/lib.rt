//! One step of the calculus GS3.
#![tactic(auto)]

mod parts;
mod step;

pub use step::{ApplyError, Premises, Step, Steps, apply, apply_below, bound_after, list_bound};

#[cfg(test)]
mod tests;
