//! The trees that the runs are about. Sets are written as bits: 10 is {1}, 100 is {2}, and 110 is {1, 2}.

use containers::{Items, Shared};
use nego_laws::sets::{SetField, SetSite, SetTree};
use nego_node::node::NodeState;
use std::alloc::{AllocError, Global};

/// The set {1}.
pub(crate) const ONE: u64 = 2;

/// The set {2}.
pub(crate) const TWO: u64 = 4;

/// The set {1, 2}.
pub(crate) const BOTH: u64 = 6;

/// A node over sets.
pub(crate) type Node = NodeState<SetField>;

/// A site: whether it has parts, and the sets that its items need.
#[derive(Clone, Copy)]
pub(crate) struct Plan(pub(crate) bool, pub(crate) &'static [u64]);

/// A root without items over two leaves.
pub(crate) const AGREES: [Plan; 3] = [
    Plan(true, &[]),
    Plan(false, &[ONE, TWO]),
    Plan(false, &[TWO]),
];

/// The same without an item on the right.
pub(crate) const FORBIDS: [Plan; 3] = [Plan(true, &[]), Plan(false, &[ONE, TWO]), Plan(false, &[])];

/// A root whose left part is such a tree, with a third item on the left, and whose right part is a leaf without items.
pub(crate) const RESUMES: [Plan; 5] = [
    Plan(true, &[]),
    Plan(true, &[]),
    Plan(false, &[]),
    Plan(false, &[ONE, TWO, BOTH]),
    Plan(false, &[TWO]),
];

fn sites(alloc: Global, plans: &[Plan]) -> Result<Items<SetSite>, AllocError> {
    let mut sites = Items::new(alloc);
    for plan in plans {
        let needs = Items::from_slice(alloc, plan.1)?;
        sites.push(SetSite {
            parted: plan.0,
            needs,
        })?;
    }
    Ok(sites)
}

/// The field of the sites, which are given in the order of their names from 1 on.
pub(crate) fn field(alloc: Global, plans: &[Plan]) -> Result<SetField, AllocError> {
    let sites = sites(alloc, plans)?;
    let tree = Shared::new(alloc, SetTree { sites })?;
    Ok(SetField { tree })
}
