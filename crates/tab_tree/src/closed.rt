//! Closed trees.

use crate::site::Site;
use containers::Boxed;

/// Each segment closes by its first item that the offer equates, and one without such an item splits.
#[derive(Drop)]
pub enum ClosedTree {
    Leaf {
        site: Site,
        item: u64,
    },
    Fork {
        site: Site,
        left: Boxed<ClosedTree>,
        right: Boxed<ClosedTree>,
    },
}
