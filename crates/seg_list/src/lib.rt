//! Lists that grow at their end and share what stood there when they were forked.
#![tactic(auto)]

mod list;
mod segment;

pub use list::SegList;
