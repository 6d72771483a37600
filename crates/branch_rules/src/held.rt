//! What stands on a branch.
use free_terms::FFormula;

/// A formula of a branch, and its rewrite level: how many rewritings led to it.
#[derive(Drop)]
pub struct Entry {
    pub formula: FFormula,
    pub level: u32,
}

/// An entry, and the number of the step that appended it, from 1. An entry of the start list has the number 0.
#[derive(Drop)]
pub struct Held {
    pub entry: Entry,
    pub born: u32,
}
