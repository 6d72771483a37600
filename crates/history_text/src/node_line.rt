//! A node's name and history.

use nego_laws::field::Offer;
use nego_node::events::Event;

/// A node's name, and what happened there.
#[derive(Drop)]
pub struct NodeLine<'a, O: Offer> {
    pub name: u128,
    pub events: &'a [Event<O>],
}
