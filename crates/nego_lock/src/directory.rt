//! Nodes that are found by their names.

ghost use Rattle.std.specs.Prelude.{◌≡◌, ℕ, true, false, ◌||◌, Some, All, IfOk, OnOk, OnErr, is_some};
ghost use Rattle.std.specs.Ordering.{nat_cmp};
ghost use Rattle.std.specs.BTreeMap.{get, is_at};
ghost use Rattle.nego_lock.specs.Gathering.{AreStatesFrom};

use crate::locked::{Key, LockedNode};
use containers::Items;
use nego_laws::field::{Field, Offer};
use nego_node::node::{NodeState, Nodes};
use std::alloc::{AllocError, Global};
use std::collections::BTreeMap;
use std::sync::{Arc, Mutex, Wait};

/// Nodes by name.
#[derive(Drop)]
pub struct NodeMap<F: Field, K: Key<F>> {
    alloc: Global,
    nodes: BTreeMap<u128, Arc<LockedNode<F, K>, Global>>,
}

impl<F: Field, K: Key<F>> NodeMap<F, K> {
    /// No nodes. It takes no memory.
    pub fn empty(alloc: Global) -> NodeMap<F, K>
        ensures { (name : ℕ) → is_some (get nat_cmp result.nodes name) ≡ false }
    {
        NodeMap {
            alloc,
            nodes: BTreeMap::new(alloc),
        }
    }

    /// The node of a name; None exactly where there is none. It takes no memory.
    pub fn node_of(&self, name: u128) -> Option<&Arc<LockedNode<F, K>, Global>>
        ensures { is_some result ≡ is_some (get nat_cmp self.now.nodes name) }
    {
        self.nodes.get(&name)
    }

    /// The node of a name, shared once more; None exactly where there is none.
    pub fn share_of(&self, name: u128) -> Result<Option<Arc<LockedNode<F, K>, Global>>, AllocError>
        ensures { IfOk result (λ found. is_some found ≡ is_some (get nat_cmp self.now.nodes name)) }
    {
        let Some(node) = self.node_of(name) else {
            return Ok(None);
        };
        let shared = Arc::try_clone(node)?;
        Ok(Some(shared))
    }

    /// Adds a node under a name that is not there. With one that is there it changes nothing, nor does an error.
    pub fn insert_node(&mut self, name: u128, node: LockedNode<F, K>) -> Result<(), AllocError>
        ensures added { OnOk result
            ((other : ℕ) → is_some (get nat_cmp self.new.nodes other)
            ≡ (is_at (nat_cmp name) other || is_some (get nat_cmp self.old.nodes other))) }
        ensures there { is_some (get nat_cmp self.old.nodes name) ≡ true → self.new.nodes ≡ self.old.nodes }
        ensures err { OnErr result (self.new.nodes.entries ≡ self.old.nodes.entries) }
    {
        if self.nodes.contains_key(&name) {
            return Ok(());
        }
        let shared = Arc::new(self.alloc, node)?;
        self.nodes.insert(name, shared)?;
        Ok(())
    }

    /// A state, and behind it those of the nodes.
    fn into_states(self, first: NodeState<F>) -> Result<Nodes<F>, AllocError>
        requires { K.tree ≡ Some (F.around first.site) }
        ensures states { IfOk result (λ nodes. AreStatesFrom first nodes) }
        ensures tree { IfOk result (λ nodes. All (λ n. K.tree ≡ Some (F.around n.site)) nodes) }
    {
        let NodeMap { alloc, nodes } = self;
        let round = first.node_round();
        let mut last = first.node_name();
        let mut rising = Vec::new(alloc);
        rising.push(first)?;
        'nodes: for (_name, node) in nodes {
            if let Ok(locked) = Arc::try_unwrap(node) {
                let state = locked.take_history();
                let name = state.node_name();
                if last < name && state.node_round() == round {
                    rising.push(state)?;
                    last = name;
                }
            }
        }
        Ok(Items::from_vec(rising))
    }
}

/// The nodes behind a lock of their own. What a call does behind the lock is not seen from outside.
#[derive(Drop)]
pub struct Directory<F: Field, K: Key<F>> {
    map: Mutex<NodeMap<F, K>>,
}

impl<F: Field, K: Key<F>> Directory<F, K> {
    /// No nodes. It takes no memory.
    pub fn new(alloc: Global) -> Directory<F, K> {
        Directory {
            map: Mutex::new(NodeMap::empty(alloc)),
        }
    }

    /// Adds a node. A name that stands already keeps its first node. It may wait for the lock.
    pub fn open<R: Wait>(
        &self,
        rt: &R,
        name: u128,
        node: LockedNode<F, K>,
    ) -> Result<(), AllocError> {
        self.map.lock(rt).insert_node(name, node)
    }

    /// Looks a node up. It may wait for the lock.
    pub fn find<R: Wait>(
        &self,
        rt: &R,
        name: u128,
    ) -> Result<Option<Arc<LockedNode<F, K>, Global>>, AllocError> {
        self.map.lock(rt).share_of(name)
    }

    /// A state of the key's tree, and behind it those of the nodes in the rising order of their names, all of that
    /// tree. A node is left out that is still shared, or is of another round than the first, or whose name is not above
    /// all names before it.
    pub fn into_states(self, first: NodeState<F>) -> Result<Nodes<F>, AllocError>
        requires { K.tree ≡ Some (F.around first.site) }
        ensures states { IfOk result (λ nodes. AreStatesFrom first nodes) }
        ensures tree { IfOk result (λ nodes. All (λ n. K.tree ≡ Some (F.around n.site)) nodes) }
    {
        let Directory { map } = self;
        map.into_inner().into_states(first)
    }
}
