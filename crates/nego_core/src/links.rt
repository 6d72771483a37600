//! How the nodes of a board stand to each other.

use nego_node::tasks::Side;

/// How a node stands to others: the place of its parent, of which side of it the node is, and the places of its left
/// and its right part where it has split.
#[derive(Clone, Copy)]
pub(crate) struct Link {
    pub(crate) parent: usize,
    pub(crate) side: Side,
    pub(crate) parts: Option<(usize, usize)>,
}
