//! What is asked of a node, of which side of it, and the lists of offers in it.

ghost use Rattle.std.specs.Prelude.{◌≡◌, ◌++◌, [], IfOk};
ghost use Rattle.nego_node.specs.Machine.{other};

use containers::{Items, Shared, append_owners, copy_owners};
use std::alloc::{AllocError, Global};
use std::marker::Model;

/// A list of offers that no longer changes. Its owners share it, so that a further one takes constant time.
#[derive(Drop)]
pub struct Offers<O> {
    list: Shared<Items<Shared<O>>>,
}

impl<O> Model for Offers<O> {
    ghost use Rattle.std.specs.Prelude.{List};
    ghost use Rattle.std.specs.Coded.{coded_list};

    ghost Value = { List O };

    ghost coded = { coded_list O.code };

    ghost view = { λ o. o.list };
}

impl<O> Offers<O> {
    /// The offers in their order.
    pub fn as_slice(&self) -> &[Shared<O>]
        ensures { result.now ≡ self.now }
    {
        self.list.get().as_slice()
    }

    /// Another owner of the same list, in constant time.
    pub fn copy(&self) -> Result<Offers<O>, AllocError>
        ensures { IfOk result (λ same. same ≡ self.now) }
    {
        Ok(Offers {
            list: self.list.copy()?,
        })
    }
}

impl<O: Drop> Offers<O> {
    /// The list of these offers.
    pub fn new(alloc: Global, offers: Items<Shared<O>>) -> Result<Offers<O>, AllocError>
        ensures { IfOk result (λ list. list ≡ offers) }
    {
        Ok(Offers {
            list: Shared::new(alloc, offers)?,
        })
    }

    /// No offers.
    pub fn none(alloc: Global) -> Result<Offers<O>, AllocError>
        ensures { IfOk result (λ list. list ≡ []) }
    {
        Offers::new(alloc, Items::new(alloc))
    }

    /// These offers and then further ones: the same list where there are no further ones.
    pub(crate) fn followed_by(
        &self,
        alloc: Global,
        more: &Items<Shared<O>>,
    ) -> Result<Offers<O>, AllocError>
        ensures { IfOk result (λ both. both ≡ self.now ++ more.now) }
    {
        if more.is_empty() {
            return self.copy();
        }
        let mut both = copy_owners(alloc, self.list.get())?;
        append_owners(&mut both, more)?;
        Offers::new(alloc, both)
    }
}

/// What a node is asked for: an offer that entails the given one, solves the node, and entails no member of the ban.
#[derive(Drop)]
pub struct Task<O> {
    /// The round of the negotiation.
    pub round: u32,
    /// The name of the node.
    pub node: u128,
    /// Counts the tasks that were asked of the node: a newer task has a greater one.
    pub generation: u64,
    /// What the offer that is sought must entail.
    pub given: Shared<O>,
    /// What it must not entail.
    pub ban: Offers<O>,
}

/// One of the two parts of a node.
#[derive(Clone, Copy, PartialEq, Eq)]
pub enum Side {
    Left,
    Right,
}

impl Side {
    /// The other part.
    pub fn other(self) -> Side
        ensures { result ≡ other self }
    {
        match self {
            Side::Left => Side::Right,
            Side::Right => Side::Left,
        }
    }
}
