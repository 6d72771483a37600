//! What a node keeps of its two parts.

ghost use Rattle.std.specs.Prelude.{◌≡◌, ◌+◌, ◌<◌, ◌^◌, None, [], OnOk, OnErr, if◌then◌else◌};
ghost use Rattle.nego_node.specs.Machine.{other};
ghost use Rattle.nego_node.specs.Parts.{
  part,
  joined,
  with_part,
  emptied_part,
  cleared_part,
  forbidding_part,
  filled_part,
  marked_part,
};

use crate::tasks::{Side, Task};
use containers::{Items, Shared};
use std::alloc::{AllocError, Global};

/// A task that was asked of a part, with the node's own generation then, and the place of the answer in the history.
#[derive(Drop)]
pub(crate) struct Asking<O> {
    pub(crate) task: Shared<Task<O>>,
    pub(crate) asked: u64,
    pub(crate) on_trial: bool,
    pub(crate) answer: Option<usize>,
}

/// What a node keeps of one of its parts.
#[derive(Drop)]
pub(crate) struct Part<O> {
    pub(crate) forbidden: Items<Shared<O>>,
    pub(crate) generation: u64,
    pub(crate) slot: Option<Asking<O>>,
}

/// What a node keeps of its two parts.
#[derive(Drop)]
pub(crate) struct Parts<O> {
    pub(crate) left: Part<O>,
    pub(crate) right: Part<O>,
}

/// An offer of one part that is put to the other.
#[derive(Drop)]
pub(crate) struct Tested<O> {
    pub(crate) side: Side,
    pub(crate) offer: Shared<O>,
}

impl<O: Drop> Part<O> {
    /// A part of which nothing was asked.
    pub(crate) fn new(alloc: Global) -> Part<O>
        ensures { result ≡ record { forbidden = []; generation = 1; slot = None } }
    {
        Part {
            forbidden: Items::new(alloc),
            generation: 1,
            slot: None,
        }
    }

    /// Empties the slot, so that an answer to what was asked is no longer awaited.
    fn empty(&mut self)
        requires { self.old.generation < 2 ^ 63 + 2 }
        ensures { self.new ≡ emptied_part self.old }
    {
        if self.slot.is_some() {
            self.slot = None;
            self.generation += 1;
        }
    }

    /// Empties the slot and the list of what is forbidden.
    fn clear(&mut self, alloc: Global)
        requires { self.old.generation < 2 ^ 63 + 2 }
        ensures { self.new ≡ cleared_part self.old }
    {
        self.empty();
        self.forbidden = Items::new(alloc);
    }

    /// Empties the slot, and forbids a further offer.
    fn forbid(&mut self, offer: Shared<O>) -> Result<(), AllocError>
        requires { self.old.generation < 2 ^ 63 + 2 }
        ensures ok { OnOk result (self.new ≡ forbidding_part self.old offer) }
        ensures err { OnErr result (self.new ≡ self.old) }
    {
        self.forbidden.push(offer)?;
        self.empty();
        Ok(())
    }

    /// Keeps the place of the answer to what was asked.
    fn mark(&mut self, place: usize)
        ensures { self.new ≡ marked_part self.old place }
    {
        if let Some(slot) = &mut self.slot {
            slot.answer = Some(place);
        }
    }
}

impl<O: Drop> Parts<O> {
    /// The part of a side.
    pub(crate) fn part(&self, side: Side) -> &Part<O>
        ensures { result.now ≡ part self.now side }
    {
        match side {
            Side::Left => &self.left,
            Side::Right => &self.right,
        }
    }

    /// Empties both slots and both lists.
    pub(crate) fn clear(&mut self, alloc: Global)
        requires left { self.old.left.generation < 2 ^ 63 + 2 }
        requires right { self.old.right.generation < 2 ^ 63 + 2 }
        ensures { self.new ≡ record { left = cleared_part self.old.left; right = cleared_part self.old.right } }
    {
        self.left.clear(alloc);
        self.right.clear(alloc);
    }

    /// Fills the slot of a side.
    pub(crate) fn fill(&mut self, side: Side, asking: Asking<O>)
        ensures { self.new ≡ with_part self.old side (filled_part (part self.old side) asking) }
    {
        match side {
            Side::Left => self.left.slot = Some(asking),
            Side::Right => self.right.slot = Some(asking),
        }
    }

    /// Keeps the place of the answer of a side.
    pub(crate) fn mark(&mut self, side: Side, place: usize)
        ensures { self.new ≡ with_part self.old side (marked_part (part self.old side) place) }
    {
        match side {
            Side::Left => self.left.mark(place),
            Side::Right => self.right.mark(place),
        }
    }

    /// Empties the slot of a side.
    pub(crate) fn empty(&mut self, side: Side)
        requires { (part self.old side).generation < 2 ^ 63 + 2 }
        ensures { self.new ≡ with_part self.old side (emptied_part (part self.old side)) }
    {
        match side {
            Side::Left => self.left.empty(),
            Side::Right => self.right.empty(),
        }
    }

    /// Empties the slot of the other side unless it is to be kept.
    pub(crate) fn empty_other_unless(&mut self, side: Side, kept: bool)
        requires { (part self.old (other side)).generation < 2 ^ 63 + 2 }
        ensures { self.new ≡ joined side (part self.old side)
            (if kept then part self.old (other side) else emptied_part (part self.old (other side))) }
    {
        if !kept {
            match side {
                Side::Left => self.right.empty(),
                Side::Right => self.left.empty(),
            }
        }
    }

    /// Empties both slots, and forbids a further offer to a side.
    pub(crate) fn forbid(&mut self, side: Side, offer: Shared<O>) -> Result<(), AllocError>
        requires left { self.old.left.generation < 2 ^ 63 + 2 }
        requires right { self.old.right.generation < 2 ^ 63 + 2 }
        ensures ok { OnOk result (self.new
            ≡ joined side (forbidding_part (part self.old side) offer) (emptied_part (part self.old (other side)))) }
        ensures err { OnErr result (self.new ≡ self.old) }
    {
        match side {
            Side::Left => {
                self.left.forbid(offer)?;
                self.right.empty();
            }
            Side::Right => {
                self.right.forbid(offer)?;
                self.left.empty();
            }
        }
        Ok(())
    }
}
