//! The state of a node, with its history, and what can be read of it.

ghost use Rattle.std.specs.Prelude.{◌≡◌, All, [], ◌≤◌, Some, OnOk, IfOk, IsSome, IfSome, OnErr, option_copied};
ghost use Rattle.std.specs.Option.{is_some};
ghost use Rattle.nego_node.specs.Machine.{
  beginning,
  half,
  generation_of,
  asked_in,
  answered_in,
  proposed_in,
  has_proposal,
  side_of,
  offer_of,
};
ghost use Rattle.nego_node.specs.Lawful.{task_of};
ghost use Rattle.nego_node.specs.NodeValue.{IsNode};
ghost use Rattle.nego_node.specs.Sound.{Belongs, IsTrueAnswer};

use crate::answers::Answer;
use crate::events::{Event, Events};
use crate::parts::{Part, Parts, Tested};
use crate::tasks::{Side, Task};
use containers::{Items, Shared};
use nego_laws::field::{Field, Offer};
use std::alloc::{AllocError, Global};
use std::marker::Model;

/// A node of a negotiation: its site, what it holds, and the events that led there.
#[derive(Drop)]
pub struct NodeState<F: Field> {
    pub(crate) site: F::Site,
    pub(crate) round: u32,
    pub(crate) name: u128,
    /// The place of the held task in the history.
    pub(crate) held: Option<usize>,
    pub(crate) next: u64,
    pub(crate) has_split: bool,
    pub(crate) parts: Parts<F::Offer>,
    pub(crate) trial: Option<Tested<F::Offer>>,
    pub(crate) answer: Option<Answer<F::Offer>>,
    pub(crate) history: Events<F::Offer>,
}

/// A list of nodes, in the order of their names where a call says so.
pub type Nodes<F> = Items<NodeState<F>>;

impl<F: Field> Model for NodeState<F> {
    ghost use Rattle.nego_node.specs.NodeValue.{NodeValue};

    ghost Value = { NodeValue F.Site F.Offer };

    ghost use Rattle.nego_node.specs.NodeView.{value_of, IsKept};

    ghost view = { value_of };

    ghost invariant = { λ n. IsKept F.Offer.tree (F.around n.site) (F.named n.site) n };
}

impl<F: Field> NodeState<F> {
    /// A node that has received nothing. It takes no memory.
    pub fn begin(alloc: Global, site: F::Site, name: u128, round: u32) -> NodeState<F>
        requires { name ≡ F.named site }
        ensures site { result.site ≡ site }
        ensures state { result.state ≡ beginning round name }
        ensures history { result.history ≡ [] }
    {
        NodeState {
            site,
            round,
            name,
            held: None,
            next: 0,
            has_split: false,
            parts: Parts {
                left: Part::new(alloc),
                right: Part::new(alloc),
            },
            trial: None,
            answer: None,
            history: Events::new(alloc),
        }
    }

    /// Makes room for that many more events, which `receive` and `post` need.
    pub fn reserve(&mut self, events: u32) -> Result<(), AllocError>
        ensures site { self.new.site ≡ self.old.site }
        ensures state { self.new.state ≡ self.old.state }
        ensures history { self.new.history ≡ self.old.history }
        ensures ok { OnOk result (events ≤ self.new.spare) }
        ensures err { OnErr result (self.new.spare ≡ self.old.spare) }
    {
        self.history.reserve(events)
    }

    /// The name that `begin` was given.
    pub fn node_name(&self) -> u128
        ensures { result ≡ self.now.state.name }
    {
        self.name
    }

    /// The round that `begin` was given.
    pub fn node_round(&self) -> u32
        ensures { result ≡ self.now.state.round }
    {
        self.round
    }

    /// The site that `begin` was given.
    pub fn site(&self) -> &F::Site
        ensures { result.now ≡ self.now.site }
    {
        &self.site
    }

    /// What the node answers to the task that it holds, and that it is true.
    pub fn answer(&self) -> Option<&Answer<F::Offer>>
        ensures answer { option_copied result ≡ self.now.state.answer }
        ensures belongs { IfSome result (λ answer. Belongs F.Offer.tree (F.around self.now.site) (task_of answer.now)) }
        ensures held { IfSome result (λ answer. self.now.state.held ≡ Some (task_of answer.now)) }
        ensures truth { IfSome result (λ answer. IsTrueAnswer F.Offer.tree (F.around self.now.site) answer.now) }
    {
        match &self.answer {
            None => None,
            Some(answer) => Some(answer),
        }
    }

    /// The events that led to the state. They are a run of lawful events from the beginning, which replayed give the
    /// state, and the node keeps what every lawful event keeps.
    pub fn history(&self) -> &Events<F::Offer>
        ensures events { result.now.items ≡ self.now.history }
        ensures node { IsNode F.Offer.tree (F.around self.now.site)
            (F.named self.now.site) self.now.state self.now.history }
    {
        &self.history
    }

    /// The task that a part is asked at present, which belongs to the tree.
    pub fn child_task(&self, side: Side) -> Option<&Shared<Task<F::Offer>>>
        ensures task { option_copied result ≡ asked_in (half self.now.state side).slot }
        ensures belongs { IfSome result (λ task. Belongs F.Offer.tree (F.around self.now.site) task.now) }
    {
        match &self.parts.part(side).slot {
            None => None,
            Some(asking) => Some(&asking.task),
        }
    }

    /// The answer of a part to what it is asked at present.
    fn posted_answer(&self, side: Side) -> Option<&Answer<F::Offer>>
        ensures { option_copied result ≡ answered_in (half self.now.state side).slot }
    {
        let place = match &self.parts.part(side).slot {
            None => return None,
            Some(asking) => match asking.answer {
                None => return None,
                Some(place) => place,
            },
        };
        match self.history.get(place) {
            Some(Event::Posted(_, answer)) => Some(answer),
            _ => None,
        }
    }

    /// The answer of a part to what it is asked at present, which is true.
    pub(crate) fn child_answer(&self, side: Side) -> Option<&Answer<F::Offer>>
        ensures answer { option_copied result ≡ answered_in (half self.now.state side).slot }
        ensures truth { IfSome result (λ answer. IsTrueAnswer F.Offer.tree (F.around self.now.site) answer.now) }
    {
        // For the proof alone: that a field is read says what the node keeps, of which the answer's truth follows.
        let _name = &self.name;
        match self.posted_answer(side) {
            None => None,
            Some(answer) => Some(answer),
        }
    }

    /// Whether the part has answered what it is asked at present.
    pub(crate) fn has_answer(&self, side: Side) -> bool
        ensures { result ≡ is_some (answered_in (half self.now.state side).slot) }
    {
        self.child_answer(side).is_some()
    }

    /// The generation of a side.
    pub(crate) fn side_generation(&self, side: Side) -> u64
        ensures { result ≡ (half self.now.state side).generation }
    {
        self.parts.part(side).generation
    }

    /// The task that the node holds, which belongs to the tree.
    pub(crate) fn held_task(&self) -> Option<&Task<F::Offer>>
        ensures task { option_copied result ≡ self.now.state.held }
        ensures belongs { IfSome result (λ task. Belongs F.Offer.tree (F.around self.now.site) task.now) }
    {
        let place = match self.held {
            None => return None,
            Some(place) => place,
        };
        match self.history.get(place) {
            Some(Event::Received(task)) => Some(task.get()),
            _ => None,
        }
    }

    /// The generation of the held task, 0 before the first.
    pub fn held_generation(&self) -> u64
        ensures { result ≡ generation_of self.now.state.held }
    {
        match self.held_task() {
            None => 0,
            Some(task) => task.generation,
        }
    }

    /// The offer of a part that has a proposal.
    pub(crate) fn proposed(&self, side: Side) -> Option<&Shared<F::Offer>>
        ensures offer { option_copied result ≡ proposed_in (half self.now.state side).slot }
        ensures belongs { IfSome result (λ offer. F.Offer.tree offer.now ≡ F.around self.now.site) }
    {
        let answer = match self.child_answer(side) {
            None => return None,
            Some(answer) => answer,
        };
        match answer {
            Answer::Proposal(proposal) => Some(proposal.offer()),
            Answer::Exhausted(_) => None,
        }
    }

    /// The offers that are forbidden to a side.
    pub(crate) fn forbidden(&self, side: Side) -> &[Shared<F::Offer>]
        ensures list { result.now ≡ (half self.now.state side).forbidden }
        ensures belong { All (λ x. F.Offer.tree x ≡ F.around self.now.site) result.now }
    {
        self.parts.part(side).forbidden.as_slice()
    }

    /// Whether a part has a proposal.
    pub(crate) fn has_proposal(&self, side: Side) -> bool
        ensures { result ≡ has_proposal (half self.now.state side).slot }
    {
        match self.child_answer(side) {
            Some(Answer::Proposal(_)) => true,
            _ => false,
        }
    }

    /// The side whose offer is put to the other one.
    pub(crate) fn trial_side(&self) -> Option<Side>
        ensures { result ≡ side_of self.now.state.trial }
    {
        match &self.trial {
            None => None,
            Some(trial) => Some(trial.side),
        }
    }

    /// The offer that is put to the other side.
    pub(crate) fn trial_offer(&self) -> Option<&Shared<F::Offer>>
        ensures { option_copied result ≡ offer_of self.now.state.trial }
    {
        match &self.trial {
            None => None,
            Some(trial) => Some(&trial.offer),
        }
    }

    /// Another owner of the held task.
    pub(crate) fn held_copy(&self) -> Result<Shared<Task<F::Offer>>, AllocError>
        requires { IsSome self.now.state.held }
        ensures { IfOk result (λ task. self.now.state.held ≡ Some task) }
    {
        let place = match self.held {
            None => unreachable!(),
            Some(place) => place,
        };
        match self.history.get(place) {
            Some(Event::Received(task)) => task.copy(),
            _ => unreachable!(),
        }
    }
}
