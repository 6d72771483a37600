//! The text of a GS3 proof, both ways.
#![tactic(auto)]

mod fault;
mod law;
mod limit;
mod reading;
mod scan;
mod spelling;
mod step;
mod table;
mod term;
mod tree;
mod word;
mod writing;

pub use law::one_tree;
pub use limit::MAX_PROOF_BYTES;
pub use reading::{ReadTree, TextError, read_tree};
pub use scan::Lines;
pub use tree::{Tree, tree_of};
pub use writing::write_tree;

#[cfg(test)]
mod tests;
