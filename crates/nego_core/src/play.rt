//! A board while picks are done on it.

ghost use Rattle.std.specs.Prelude.{
  ◌≡◌,
  ◌≢◌,
  ◌<◌,
  ◌++◌,
  ◌∷◌,
  [],
  ◌↔◌,
  ◌%◌,
  Some,
  None,
  IsTrue,
  IfOk,
  OnOk,
  length,
  slice_get,
};
ghost use Rattle.nego_node.specs.Board.{first_task, asked_at, said_at, BoardNode};
ghost use Rattle.nego_node.specs.Machine.{part_of};
ghost use Rattle.nego_node.specs.declared.acts.Act.TheVariants as acts;
ghost use Rattle.nego_core.specs.Bare.{bare};
ghost use Rattle.nego_core.specs.Links.{place_of};
ghost use Rattle.nego_core.specs.Plays.{Plays, Stepped, Opens, HasTurned, HasPicked};
ghost use Rattle.nego_node.specs.declared.moves.Move.TheVariants as moves;

use crate::links::Link;
use crate::picks::{Pick, act_numbered};
use crate::turns::{accept, make, take};
use containers::Shared;
use nego_laws::field::{Field, Offer};
use nego_node::acts::Act;
use nego_node::answers::Answer;
use nego_node::moves::Move;
use nego_node::node::NodeState;
use nego_node::tasks::{Offers, Side, Task};
use std::alloc::{AllocError, Global};

/// A board while picks are done on it: its nodes in the order of opening, and how each stands to others.
#[derive(Drop)]
pub(crate) struct Play<F: Field> {
    pub(crate) nodes: Vec<NodeState<F>>,
    pub(crate) links: Vec<Link>,
}

/// The task of the root.
fn root_task<F: Field>(
    alloc: Global,
    field: &F,
    round: u32,
) -> Result<Shared<Task<F::Offer>>, AllocError>
    ensures { IfOk result (λ task. task ≡ first_task (F.tree field.now) round) }
{
    let given = Shared::new(alloc, field.free()?)?;
    let ban = Offers::none(alloc)?;
    let task = Task {
        round,
        node: 1,
        generation: 1,
        given,
        ban,
    };
    Shared::new(alloc, task)
}

/// The place of a part.
fn place_of(parts: (usize, usize), side: Side) -> usize
    ensures { result ≡ place_of parts side }
{
    match side {
        Side::Left => parts.0,
        Side::Right => parts.1,
    }
}

/// Whether the move is to split.
fn is_split(step: Move) -> bool
    ensures { IsTrue result ↔ (step ≡ moves.Split) }
{
    matches!(step, Move::Split)
}

impl<F: Field> Play<F> {
    /// How many nodes there are.
    pub(crate) fn count(&self) -> usize
        ensures { result ≡ length self.now.nodes.items }
    {
        self.nodes.len()
    }

    /// The node at a place.
    fn node(&self, at: usize) -> &NodeState<F>
        requires { at < length self.now.nodes.items }
        ensures { slice_get self.now.nodes.items at ≡ Some result.now }
    {
        &self.nodes[at]
    }

    /// How the node at a place stands to others.
    fn link(&self, at: usize) -> Link
        requires { at < length self.now.links.items }
        ensures { slice_get self.now.links.items at ≡ Some result }
    {
        self.links[at]
    }

    /// What the node at a place is asked at present.
    fn asked(
        &self,
        alloc: Global,
        field: &F,
        round: u32,
        at: usize,
    ) -> Result<Option<Shared<Task<F::Offer>>>, AllocError>
        requires plays { Plays F.Offer.tree
            (F.tree field.now) F.around round self.now.nodes.items self.now.links.items }
        requires at { at < length self.now.nodes.items }
        ensures { IfOk result (λ task. (n : BoardNode F.Offer) → slice_get (bare self.now.nodes.items) at ≡ Some n
            → task ≡ asked_at (F.tree field.now) round (bare self.now.nodes.items) n.state.name) }
    {
        if at == 0 {
            return Ok(Some(root_task(alloc, field, round)?));
        }
        let link = self.link(at);
        match self.node(link.parent).child_task(link.side) {
            None => Ok(None),
            Some(task) => Ok(Some(task.copy()?)),
        }
    }

    /// What a part of the node at a place answers at present.
    fn said(
        &self,
        _field: &F,
        _round: u32,
        at: usize,
        side: Side,
    ) -> Result<Option<Answer<F::Offer>>, AllocError>
        requires plays { Plays F.Offer.tree
            (F.tree _field.now) F.around _round self.now.nodes.items self.now.links.items }
        requires at { at < length self.now.nodes.items }
        ensures { IfOk result (λ answer. (n : BoardNode F.Offer) → slice_get (bare self.now.nodes.items) at ≡ Some n
            → answer ≡ said_at (bare self.now.nodes.items) (part_of n.state.name side)) }
    {
        let parts = match self.link(at).parts {
            None => return Ok(None),
            Some(parts) => parts,
        };
        match self.node(place_of(parts, side)).answer() {
            None => Ok(None),
            Some(answer) => Ok(Some(answer.copy()?)),
        }
    }

    /// The node at a place takes the task that it is asked at present. The answer is whether that is lawful.
    fn receive(
        &mut self,
        alloc: Global,
        field: &F,
        round: u32,
        at: usize,
    ) -> Result<bool, AllocError>
        requires plays { Plays F.Offer.tree
            (F.tree field.now) F.around round self.old.nodes.items self.old.links.items }
        requires at { at < length self.old.nodes.items }
        ensures { IfOk result (λ did. Stepped F.Offer.tree
            (F.tree field.now) F.around round at acts.Receive
            self.old.nodes.items self.new.nodes.items self.new.links.items did) }
    {
        match self.asked(alloc, field, round, at)? {
            None => Ok(false),
            Some(task) => {
                let did = take(field, &mut self.nodes[at], task)?;
                Ok(did)
            }
        }
    }

    /// The node at a place takes the present answer of a part. The answer is whether that is lawful.
    fn post(&mut self, field: &F, round: u32, at: usize, side: Side) -> Result<bool, AllocError>
        requires plays { Plays F.Offer.tree
            (F.tree field.now) F.around round self.old.nodes.items self.old.links.items }
        requires at { at < length self.old.nodes.items }
        ensures { IfOk result (λ did. Stepped F.Offer.tree (F.tree field.now) F.around round at
            (acts.Post side) self.old.nodes.items self.new.nodes.items self.new.links.items did) }
    {
        match self.said(field, round, at, side)? {
            None => Ok(false),
            Some(answer) => {
                let did = accept(field, &mut self.nodes[at], side, answer)?;
                Ok(did)
            }
        }
    }

    /// Opens a part of the node at a place.
    fn open(
        &mut self,
        alloc: Global,
        field: &F,
        round: u32,
        site: F::Site,
        parent: usize,
        side: Side,
    ) -> Result<(), AllocError>
        ensures nodes { OnOk result (Opens round site (F.named site) self.old.nodes.items self.new.nodes.items) }
        ensures links { OnOk result
            (self.new.links.items ≡ self.old.links.items ++ record { parent = parent; side = side; parts = None }
            ∷ []) }
    {
        let name = field.name(&site);
        self.nodes.push(NodeState::begin(alloc, site, name, round))?;
        self.links.push(Link {
            parent,
            side,
            parts: None,
        })?;
        Ok(())
    }

    /// The node at a place splits, and its parts are opened. The answer is whether that is lawful.
    fn split(&mut self, alloc: Global, field: &F, round: u32, at: usize) -> Result<bool, AllocError>
        requires plays { Plays F.Offer.tree
            (F.tree field.now) F.around round self.old.nodes.items self.old.links.items }
        requires at { at < length self.old.nodes.items }
        ensures { IfOk result (λ did. Stepped F.Offer.tree (F.tree field.now) F.around round at
            (acts.Make moves.Split) self.old.nodes.items self.new.nodes.items self.new.links.items did) }
    {
        if !self.node(at).lawful(field, Move::Split) {
            return Ok(false);
        }
        let link = self.link(at);
        let (left, right) = self.nodes[at].split_into(field)?;
        let first = self.count();
        self.open(alloc, field, round, left, at, Side::Left)?;
        let second = self.count();
        self.open(alloc, field, round, right, at, Side::Right)?;
        self.links[at] = Link {
            parent: link.parent,
            side: link.side,
            parts: Some((first, second)),
        };
        Ok(true)
    }

    /// The node at a place makes a move other than to split. The answer is whether that is lawful.
    fn make(&mut self, field: &F, _round: u32, at: usize, step: Move) -> Result<bool, AllocError>
        requires plays { Plays F.Offer.tree
            (F.tree field.now) F.around _round self.old.nodes.items self.old.links.items }
        requires at { at < length self.old.nodes.items }
        requires no_split { step ≢ moves.Split }
        ensures { IfOk result (λ did. Stepped F.Offer.tree (F.tree field.now) F.around _round at
            (acts.Make step) self.old.nodes.items self.new.nodes.items self.new.links.items did) }
    {
        let did = make(field, &mut self.nodes[at], step)?;
        Ok(did)
    }

    /// The node at a place makes a move. The answer is whether that is lawful.
    fn step(
        &mut self,
        alloc: Global,
        field: &F,
        round: u32,
        at: usize,
        step: Move,
    ) -> Result<bool, AllocError>
        requires plays { Plays F.Offer.tree
            (F.tree field.now) F.around round self.old.nodes.items self.old.links.items }
        requires at { at < length self.old.nodes.items }
        ensures { IfOk result (λ did. Stepped F.Offer.tree (F.tree field.now) F.around round at
            (acts.Make step) self.old.nodes.items self.new.nodes.items self.new.links.items did) }
    {
        if is_split(step) {
            self.split(alloc, field, round, at)
        } else {
            self.make(field, round, at, step)
        }
    }

    /// An act at the node of a place. The answer is whether that is lawful.
    pub(crate) fn act(
        &mut self,
        alloc: Global,
        field: &F,
        round: u32,
        at: usize,
        act: Act,
    ) -> Result<bool, AllocError>
        requires plays { Plays F.Offer.tree
            (F.tree field.now) F.around round self.old.nodes.items self.old.links.items }
        requires at { at < length self.old.nodes.items }
        ensures { IfOk result (λ did. Stepped F.Offer.tree
            (F.tree field.now) F.around round at act
            self.old.nodes.items self.new.nodes.items self.new.links.items did) }
    {
        match act {
            Act::Receive => self.receive(alloc, field, round, at),
            Act::Post(side) => self.post(field, round, at, side),
            Act::Make(step) => self.step(alloc, field, round, at, step),
        }
    }

    /// The root alone.
    pub(crate) fn begin(alloc: Global, field: &F, round: u32) -> Result<Play<F>, AllocError>
        ensures { IfOk result (λ play. HasPicked F.Offer.tree
            (F.tree field.now) F.around round [] play.nodes.items play.links.items 0) }
    {
        let mut play = Play {
            nodes: Vec::new(alloc),
            links: Vec::new(alloc),
        };
        let site = field.root()?;
        play.open(alloc, field, round, site, 0, Side::Left)?;
        Ok(play)
    }

    /// Does a pick. The answer is whether it is lawful.
    pub(crate) fn turn(
        &mut self,
        alloc: Global,
        field: &F,
        round: u32,
        pick: Pick,
    ) -> Result<bool, AllocError>
        requires plays { Plays F.Offer.tree
            (F.tree field.now) F.around round self.old.nodes.items self.old.links.items }
        ensures { IfOk result (λ did. HasTurned F.Offer.tree
            (F.tree field.now) F.around round pick self.old.nodes.items self.new.nodes.items self.new.links.items did) }
    {
        let at = self.place(field, round, pick.node);
        match act_numbered(pick.act) {
            None => Ok(false),
            Some(act) => {
                let did = self.act(alloc, field, round, at, act)?;
                Ok(did)
            }
        }
    }

    /// The place of a node by a pick's number.
    fn place(&self, _field: &F, _round: u32, number: u64) -> usize
        requires plays { Plays F.Offer.tree
            (F.tree _field.now) F.around _round self.now.nodes.items self.now.links.items }
        ensures place { result ≡ number % length self.now.nodes.items }
        ensures within { result < length self.now.nodes.items }
    {
        (number % self.count() as u64) as usize
    }

    /// The nodes alone.
    pub(crate) fn into_nodes(self) -> Vec<NodeState<F>>
        ensures { result.items ≡ self.nodes.items }
    {
        self.nodes
    }
}
