//! A book that counts the tries of several workers against one limit.
#![tactic(auto)]

mod count;
mod shares;

pub use count::{Book, Count, Draw, Share};
pub use shares::Shares;

#[cfg(test)]
mod tests;
