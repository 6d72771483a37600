//! Places of literals by sign and predicate, and a test that tells pairs apart before unification.
#![tactic(auto)]

mod index;
mod positions;
mod segment;

pub use index::{LitIndex, Places};
pub use positions::apart;

#[cfg(test)]
mod tests;
