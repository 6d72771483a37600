//! What stands in a deque.

ghost use Rattle.std.specs.Prelude.{◌≡◌, Some};
ghost use Rattle.nego_lock.specs.Visits.{MessageBelongs};

use nego_laws::field::{Field, Offer};
use nego_lock::locked::Key;
use nego_lock::visit::Message;
use std::collections::LinkedList;
use std::marker::{Model, PhantomData};

/// A node to visit, and what is brought to it, which belongs to the key's tree.
#[derive(Drop)]
pub(crate) struct Entry<F: Field, K: Key<F>> {
    node: u128,
    message: Message<F>,
    of: PhantomData<K>,
}

impl<F: Field, K: Key<F>> Model for Entry<F, K> {
    ghost use Rattle.pool_run.specs.Entries.{EntryValue, IsOfKey};

    ghost Value = { EntryValue F F.Offer F.Site };

    ghost view = { λ e. record { node = e.node; message = e.message } };

    ghost invariant = { λ e. IsOfKey F.Offer.tree K.tree e.message };
}

impl<F: Field, K: Key<F>> Entry<F, K> {
    /// A visit that brings a message.
    pub(crate) fn bringing(_field: &F, node: u128, message: Message<F>) -> Entry<F, K>
        requires key { K.tree ≡ Some (F.tree _field.now) }
        requires message { MessageBelongs F.Offer.tree (F.tree _field.now) message }
        ensures { result ≡ record { node = node; message = message } }
    {
        Entry {
            node,
            message,
            of: PhantomData,
        }
    }

    /// How many offers the task that it brings bans, or 0 where it brings an answer.
    pub(crate) fn banned(&self) -> usize {
        match &self.message {
            Message::Task(task) => task.get().ban.as_slice().len(),
            Message::Answer(_, _) => 0,
        }
    }

    /// The node, and what is brought to it.
    pub(crate) fn into_parts(self, _field: &F) -> (u128, Message<F>)
        requires key { K.tree ≡ Some (F.tree _field.now) }
        ensures parts { (result.0 ≡ self.node) × (result.1 ≡ self.message) }
        ensures belongs { MessageBelongs F.Offer.tree (F.tree _field.now) result.1 }
    {
        let Entry {
            node,
            message,
            of: _,
        } = self;
        (node, message)
    }
}

/// What a pass has put into a deque and taken from it. No value of it is made.
pub(crate) struct Hand<F: Field, K: Key<F>> {
    pub(crate) put: LinkedList<Entry<F, K>>,
    pub(crate) taken: LinkedList<Entry<F, K>>,
}
