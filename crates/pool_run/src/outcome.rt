//! What a pool answers.

ghost use Rattle.std.specs.Prelude.{◌≡◌};

use nego_laws::field::{Field, Offer};
use nego_node::answers::{Exhausted, Proposal};
use nego_node::node::Nodes;
use std::marker::Model;

/// How a pool ended.
#[derive(Drop)]
pub enum PoolEnd<O: Offer> {
    /// The root's answer: an offer that solves it.
    Closed(Proposal<O>),
    /// The root's answer: no offer solves it.
    Open(Exhausted<O>),
    /// No try is left, and some node is to try an item.
    Spent,
}

/// What a pool did. Only `negotiate` makes one.
#[derive(Drop)]
pub struct PoolRun<F: Field> {
    pub(crate) end: PoolEnd<F::Offer>,
    pub(crate) nodes: Nodes<F>,
    pub(crate) tries: u64,
}

impl<F: Field> Model for PoolRun<F> {
    ghost use Rattle.pool_run.specs.Values.{RunValue};

    ghost Value = { RunValue F.Site F.Offer };

    ghost view = { λ r. record { end = r.end; nodes = r.nodes; tries = r.tries } };
}

impl<F: Field> PoolRun<F> {
    /// How it ended.
    pub fn end(&self) -> &PoolEnd<F::Offer>
        ensures { result.now ≡ self.now.end }
    {
        &self.end
    }

    /// The nodes in the order of their names.
    pub fn nodes(&self) -> &Nodes<F>
        ensures { result.now ≡ self.now.nodes }
    {
        &self.nodes
    }

    /// How many items were tried.
    pub fn tries(&self) -> u64
        ensures { result ≡ self.now.tries }
    {
        self.tries
    }

    /// How it ended, the nodes in the order of their names, and how many items were tried.
    pub fn into_parts(self) -> (PoolEnd<F::Offer>, Nodes<F>, u64)
        ensures { (result.0 ≡ self.end) × (result.1 ≡ self.nodes) × (result.2 ≡ self.tries) }
    {
        let PoolRun { end, nodes, tries } = self;
        (end, nodes, tries)
    }
}
