//! The events at a node, and the list of them.

ghost use Rattle.std.specs.Prelude.{◌≡◌, [], ◌++◌, ◌∷◌, ◌<◌, ◌≤◌, ◌+◌, ◌^◌, length, slice_get, IfOk, OnOk, OnErr};
ghost use Rattle.std.specs.Option.{option_copied};

use crate::answers::Answer;
use crate::tasks::{Side, Task};
use containers::{Log, Shared};
use nego_laws::field::Offer;
use std::alloc::{AllocError, Global};
use std::marker::Model;

/// How an attempt at an item ended.
#[derive(Drop)]
pub enum Outcome<O> {
    /// No offer that entails the given one closes the item.
    None,
    /// The most general offer that does entails a member of the ban.
    Banned(Shared<O>),
    /// The most general offer that does entails no member of the ban.
    Offer(Shared<O>),
}

/// What happens at a node. A proposal of a part is named by its side and its generation.
#[derive(Drop)]
pub enum Event<O: Offer> {
    /// The node takes a task.
    Received(Shared<Task<O>>),
    /// It tries an item.
    Tried(u64, Outcome<O>),
    /// It splits into its parts.
    Split,
    /// It asks a task of a part.
    Asked(Side, Shared<Task<O>>),
    /// It takes the answer of a part.
    Posted(Side, Answer<O>),
    /// It puts the offer of a part to the other one.
    Adopted(Side, u64, Shared<O>),
    /// The other part agrees, with an offer that the node answers.
    Agreed(Side, u64, Shared<O>),
    /// The other part has no answer to the offer of a part, which is forbidden from then on.
    Forbidden(Side, u64, Shared<O>),
    /// The proposal of a part came to an earlier question, and is turned down.
    Refused(Side, u64),
    /// No offer does what the task seeks.
    Exhausted,
}

/// Events in their order, with room for more.
#[derive(Drop)]
pub struct Events<O: Offer> {
    log: Log<Event<O>>,
}

impl<O: Offer> Model for Events<O> {
    ghost use Rattle.containers.specs.Growing.{Growing};
    ghost use Rattle.nego_node.specs.declared.events.Event.{Event};

    ghost Value = { Growing (Event O) };

    ghost view = { λ e. e.log };
}

impl<O: Offer> Outcome<O> {
    /// Another owner of the same outcome.
    pub fn copy(&self) -> Result<Outcome<O>, AllocError>
        ensures { IfOk result (λ same. same ≡ self.now) }
    {
        match self {
            Outcome::None => Ok(Outcome::None),
            Outcome::Banned(offer) => Ok(Outcome::Banned(offer.copy()?)),
            Outcome::Offer(offer) => Ok(Outcome::Offer(offer.copy()?)),
        }
    }
}

impl<O: Offer> Event<O> {
    /// Another owner of the same event.
    pub fn copy(&self) -> Result<Event<O>, AllocError>
        ensures { IfOk result (λ same. same ≡ self.now) }
    {
        match self {
            Event::Received(task) => Ok(Event::Received(task.copy()?)),
            Event::Tried(item, outcome) => Ok(Event::Tried(*item, outcome.copy()?)),
            Event::Split => Ok(Event::Split),
            Event::Asked(side, task) => Ok(Event::Asked(*side, task.copy()?)),
            Event::Posted(side, answer) => Ok(Event::Posted(*side, answer.copy()?)),
            Event::Adopted(side, generation, offer) => {
                Ok(Event::Adopted(*side, *generation, offer.copy()?))
            }
            Event::Agreed(side, generation, offer) => {
                Ok(Event::Agreed(*side, *generation, offer.copy()?))
            }
            Event::Forbidden(side, generation, offer) => {
                Ok(Event::Forbidden(*side, *generation, offer.copy()?))
            }
            Event::Refused(side, generation) => Ok(Event::Refused(*side, *generation)),
            Event::Exhausted => Ok(Event::Exhausted),
        }
    }
}

impl<O: Offer> Events<O> {
    /// No events. It takes no memory.
    pub(crate) fn new(alloc: Global) -> Events<O>
        ensures { result.items ≡ [] }
    {
        Events {
            log: Log::new(alloc),
        }
    }

    /// The events in their order.
    pub fn as_slice(&self) -> &[Event<O>]
        ensures { result.now ≡ self.now.items }
    {
        self.log.as_slice()
    }

    /// An equal list of events, which shares their tasks and offers.
    pub fn copy(&self) -> Result<Events<O>, AllocError>
        ensures { IfOk result (λ same. same.items ≡ self.now.items) }
    {
        let mut log = Log::new(self.log.allocator());
        for event in self.log.as_slice() {
            log.push(event.copy()?)?;
        }
        Ok(Events { log })
    }

    /// The allocator of its memory.
    pub(crate) fn allocator(&self) -> Global {
        self.log.allocator()
    }

    /// How many there are.
    pub(crate) fn len(&self) -> usize
        ensures length { result ≡ length self.now.items }
        ensures short { result < 2 ^ 63 }
    {
        self.log.len()
    }

    /// The event at a place.
    pub(crate) fn get(&self, at: usize) -> Option<&Event<O>>
        ensures value { option_copied result ≡ slice_get self.now.items at }
    {
        self.log.get(at)
    }

    /// Makes room for that many more.
    pub(crate) fn reserve(&mut self, more: u32) -> Result<(), AllocError>
        ensures items { self.new.items ≡ self.old.items }
        ensures ok { OnOk result (more ≤ self.new.spare) }
        ensures err { OnErr result (self.new.spare ≡ self.old.spare) }
    {
        self.log.reserve(more)
    }

    /// Adds an event where there is room. It takes no memory.
    pub(crate) fn put(&mut self, event: Event<O>)
        requires { 0 < self.old.spare }
        ensures items { self.new.items ≡ self.old.items ++ event ∷ [] }
        ensures spare { self.old.spare ≤ self.new.spare + 1 }
    {
        self.log.put(event);
    }
}
