//! Nodes behind locks of their own, and what one visit does to one.
#![tactic(auto)]

pub mod directory;
pub mod locked;
#[cfg(test)]
mod tests;
pub mod visit;
