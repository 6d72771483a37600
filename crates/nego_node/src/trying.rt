//! The attempts at the items of a node.

ghost use Rattle.std.specs.Prelude.{◌≡◌, [], ◌++◌, ◌∷◌, ◌<◌, Some, OnOk, IfOk, OnErr};
ghost use Rattle.nego_node.specs.Machine.{after};
ghost use Rattle.nego_node.specs.Lawful.{MayTry, CanTry, Ends};
ghost use Rattle.nego_node.specs.Moves.{Did};
ghost use Rattle.nego_node.specs.declared.moves.Move.TheVariants as moves;
ghost use Rattle.nego_node.specs.Sound.{IsUselessOutcome};
ghost use Rattle.nego_node.specs.declared.events.Event.TheVariants.{Tried};

use crate::answers::{Answer, Proposal};
use crate::bans::entails_some;
use crate::events::{Event, Outcome};
use crate::node::NodeState;
use crate::tasks::Task;
use containers::Shared;
use nego_laws::field::{Field, Offer};
use std::alloc::AllocError;

impl<F: Field> NodeState<F> {
    /// The item was of no use.
    fn pass_over(&mut self, field: &F, outcome: Outcome<F::Offer>)
        requires tree { F.around self.old.site ≡ F.tree field.now }
        requires spare { 0 < self.old.spare }
        requires lawful { MayTry F.Offer.tree (F.around self.old.site) self.old.state self.old.state.next outcome }
        requires useless { IsUselessOutcome outcome }
        ensures site { self.new.site ≡ self.old.site }
        ensures state { self.new.state
            ≡ after (F.around self.old.site) self.old.state (Tried self.old.state.next outcome) }
        ensures history { self.new.history ≡ self.old.history ++ Tried self.old.state.next outcome ∷ [] }
    {
        // For the proof alone: the number of items is one of 64 bits, and so is the next one.
        let _items = field.items(&self.site);
        self.history.put(Event::Tried(self.next, outcome));
        self.next += 1;
    }

    /// The item gave an offer, which the node answers.
    fn propose(
        &mut self,
        field: &F,
        task: Shared<Task<F::Offer>>,
        offer: Shared<F::Offer>,
        other: Shared<F::Offer>,
    )
        requires tree { F.around self.old.site ≡ F.tree field.now }
        requires spare { 0 < self.old.spare }
        requires held { self.old.state.held ≡ Some task }
        requires same { other ≡ offer }
        requires lawful { MayTry F.Offer.tree (F.around self.old.site) self.old.state self.old.state.next
            (Outcome.Offer offer) }
        ensures site { self.new.site ≡ self.old.site }
        ensures state { self.new.state
            ≡ after (F.around self.old.site) self.old.state (Tried self.old.state.next (Outcome.Offer offer)) }
        ensures history { self.new.history ≡ self.old.history ++ Tried self.old.state.next (Outcome.Offer offer) ∷ [] }
    {
        // For the proof alone: the number of items is one of 64 bits, and so is the next one.
        let _items = field.items(&self.site);
        self.answer = Some(Answer::Proposal(Proposal::new(task, other)));
        self.history
            .put(Event::Tried(self.next, Outcome::Offer(offer)));
        self.next += 1;
    }

    /// How an attempt at the next item ends.
    fn next_outcome(
        &self,
        field: &F,
        task: &Task<F::Offer>,
    ) -> Result<Outcome<F::Offer>, AllocError>
        requires tree { F.around self.now.site ≡ F.tree field.now }
        requires held { self.now.state.held ≡ Some task.now }
        requires exists { self.now.state.next < (F.tree field.now).items self.now.state.name }
        ensures { IfOk result (λ outcome. Ends F.Offer.tree
            (F.tree field.now) self.now.state.name self.now.state.next task.now outcome) }
    {
        let alloc = self.history.allocator();
        let found = match field.attempt(&self.site, self.next, task.given.get())? {
            None => return Ok(Outcome::None),
            Some(found) => Shared::new(alloc, found)?,
        };
        if entails_some(field, found.get(), task.ban.as_slice()) {
            Ok(Outcome::Banned(found))
        } else {
            Ok(Outcome::Offer(found))
        }
    }

    /// Records how an attempt at the next item ended. It may want memory for the answer.
    fn record_try(
        &mut self,
        field: &F,
        task: Shared<Task<F::Offer>>,
        outcome: Outcome<F::Offer>,
    ) -> Result<(), AllocError>
        requires tree { F.around self.old.site ≡ F.tree field.now }
        requires spare { 0 < self.old.spare }
        requires held { self.old.state.held ≡ Some task }
        requires lawful { MayTry F.Offer.tree (F.around self.old.site) self.old.state self.old.state.next outcome }
        ensures site { self.new.site ≡ self.old.site }
        ensures did { OnOk result (Did F.Offer.tree
            (F.around self.old.site) moves.Try self.old.state self.new.state self.old.history self.new.history) }
        ensures state_after_err { OnErr result (self.new.state ≡ self.old.state) }
        ensures history_after_err { OnErr result (self.new.history ≡ self.old.history) }
    {
        match outcome {
            Outcome::None => self.pass_over(field, Outcome::None),
            Outcome::Banned(found) => self.pass_over(field, Outcome::Banned(found)),
            Outcome::Offer(found) => {
                let other = found.copy()?;
                self.propose(field, task, found, other);
            }
        }
        Ok(())
    }

    /// Tries the next item, where there is room for the event.
    fn try_next(&mut self, field: &F) -> Result<(), AllocError>
        requires tree { F.around self.old.site ≡ F.tree field.now }
        requires spare { 0 < self.old.spare }
        requires lawful { CanTry (F.around self.old.site) self.old.state }
        ensures site { self.new.site ≡ self.old.site }
        ensures did { OnOk result (Did F.Offer.tree
            (F.around self.old.site) moves.Try self.old.state self.new.state self.old.history self.new.history) }
        ensures state_after_err { OnErr result (self.new.state ≡ self.old.state) }
        ensures history_after_err { OnErr result (self.new.history ≡ self.old.history) }
    {
        let task = self.held_copy()?;
        let outcome = self.next_outcome(field, task.get())?;
        self.record_try(field, task, outcome)
    }

    /// Tries the next item.
    pub fn tried(&mut self, field: &F) -> Result<(), AllocError>
        requires tree { F.around self.old.site ≡ F.tree field.now }
        requires lawful { CanTry (F.around self.old.site) self.old.state }
        ensures site { self.new.site ≡ self.old.site }
        ensures did { OnOk result (Did F.Offer.tree
            (F.around self.old.site) moves.Try self.old.state self.new.state self.old.history self.new.history) }
        ensures state_after_err { OnErr result (self.new.state ≡ self.old.state) }
        ensures history_after_err { OnErr result (self.new.history ≡ self.old.history) }
    {
        self.reserve(1)?;
        self.try_next(field)
    }
}
