//! What is kept of a search.

ghost use Rattle.deepening.specs.Kept.{IsEmpty};

use containers::Items;
use nego_node::node::Nodes;
use pool_run::outcome::PoolRun;
use std::alloc::Global;
use tab_field::TabField;
use tab_tree::Engine;

/// The depth of the last round, what settled it, and its nodes in the order of their names. Where the plain engine
/// settled it after several workers had given it up, also what those did. All four are empty where there was no round.
#[derive(Drop)]
pub struct Kept {
    pub depth: u32,
    pub engine: Option<Engine>,
    pub nodes: Nodes<TabField>,
    pub given_up: Option<PoolRun<TabField>>,
}

impl Kept {
    /// Nothing of any round. It takes no memory.
    pub fn new(alloc: Global) -> Kept
        ensures { IsEmpty result }
    {
        Kept {
            depth: 0,
            engine: None,
            nodes: Items::new(alloc),
            given_up: None,
        }
    }
}
