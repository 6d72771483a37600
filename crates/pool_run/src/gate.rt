//! What is called before each visit.

/// What a worker calls before it visits a node. It may hold the worker up.
pub trait Gate: Sync {
    /// Called with the name of the node.
    fn before(&self, node: u128);
}
