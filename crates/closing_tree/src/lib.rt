//! The closed tree of an offer: where each branch of a round's tableau closes.
#![tactic(auto)]

mod closing_tree;

pub use closing_tree::closed_tree;
