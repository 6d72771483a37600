//! Offers of a round, which know their round, and the tree of the round's segments that they solve.
#![tactic(auto)]

mod offer;

pub use offer::TabOffer;
