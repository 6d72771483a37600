//! The walk that looks for an open leaf of a tableau.
#![tactic(auto)]

mod limit;
mod unifiable;
mod walking;

pub use limit::MOST_SEGMENTS;
pub use walking::report_open;

#[cfg(test)]
mod tests;
