//! The single events at a node that a move makes, where there is room for them.

ghost use Rattle.std.specs.Prelude.{◌≡◌, [], ◌++◌, ◌∷◌, ◌<◌, true, Some, None, OnOk, IfOk, OnErr};
ghost use Rattle.nego_node.specs.Machine.{after, half, other, part_of, task_for, has_proposal};
ghost use Rattle.nego_node.specs.Lawful.{MayAsk, MayAdopt, MayAgree, MayForbid, MayRefuse, MayGiveUp};
ghost use Rattle.nego_node.specs.declared.events.Event.TheVariants.{
  Asked,
  Adopted,
  Agreed,
  Forbidden,
  Refused,
  Exhausted as GiveUp,
};

use crate::answers::{Answer, Exhausted, Proposal};
use crate::events::Event;
use crate::node::NodeState;
use crate::parts::{Asking, Tested};
use crate::tasks::{Side, Task};
use containers::Shared;
use nego_laws::field::{Field, Offer};
use std::alloc::AllocError;

/// The name of a part of a site.
fn part_name<F: Field>(field: &F, site: &F::Site, side: Side) -> u128
    requires tree { F.around site.now ≡ F.tree field.now }
    requires parted { (F.tree field.now).parted (F.named site.now) ≡ true }
    ensures { result ≡ part_of (F.named site.now) side }
{
    let name = field.name(site);
    // For the proof alone: a site that has parts has room for their names.
    let _parted = field.has_parts(site);
    match side {
        Side::Left => 2 * name,
        Side::Right => 2 * name + 1,
    }
}

impl<F: Field> NodeState<F> {
    /// Fills the slot of a side with a task.
    pub(crate) fn ask(
        &mut self,
        _field: &F,
        side: Side,
        task: Shared<Task<F::Offer>>,
        same: Shared<Task<F::Offer>>,
    )
        requires tree { F.around self.old.site ≡ F.tree _field.now }
        requires spare { 0 < self.old.spare }
        requires same { same ≡ task }
        requires lawful { MayAsk (F.around self.old.site) self.old.state side task }
        ensures site { self.new.site ≡ self.old.site }
        ensures state { self.new.state ≡ after (F.around self.old.site) self.old.state (Asked side task) }
        ensures history { self.new.history ≡ self.old.history ++ Asked side task ∷ [] }
    {
        let asked = self.held_generation();
        let asking = Asking {
            task: same,
            asked,
            on_trial: self.trial.is_some(),
            answer: None,
        };
        self.parts.fill(side, asking);
        self.history.put(Event::Asked(side, task));
    }

    /// Puts the offer of a side to the other one.
    pub(crate) fn adopt(
        &mut self,
        _field: &F,
        side: Side,
        offer: Shared<F::Offer>,
        same: Shared<F::Offer>,
        stays: bool,
    )
        requires tree { F.around self.old.site ≡ F.tree _field.now }
        requires spare { 0 < self.old.spare }
        requires same { same ≡ offer }
        requires stays { stays ≡ has_proposal (half self.old.state (other side)).slot }
        requires lawful { MayAdopt (F.around self.old.site) self.old.state side
            (half self.old.state side).generation offer }
        ensures site { self.new.site ≡ self.old.site }
        ensures state { self.new.state
            ≡ after (F.around self.old.site) self.old.state (Adopted side (half self.old.state side).generation offer) }
        ensures history { self.new.history ≡ self.old.history
            ++ Adopted side (half self.old.state side).generation offer ∷ [] }
    {
        let generation = self.side_generation(side);
        // For the proof alone: the history is shorter than 2^63, and so a generation can rise by one.
        let _length = self.history.len();
        self.parts.empty_other_unless(side, stays);
        self.trial = Some(Tested { side, offer: same });
        self.history.put(Event::Adopted(side, generation, offer));
    }

    /// Answers the offer of a side that agrees.
    pub(crate) fn agree(
        &mut self,
        _field: &F,
        side: Side,
        task: Shared<Task<F::Offer>>,
        offer: Shared<F::Offer>,
        same: Shared<F::Offer>,
    )
        requires tree { F.around self.old.site ≡ F.tree _field.now }
        requires spare { 0 < self.old.spare }
        requires same { same ≡ offer }
        requires held { self.old.state.held ≡ Some task }
        requires lawful { MayAgree (F.around self.old.site) self.old.state side
            (half self.old.state side).generation offer }
        ensures site { self.new.site ≡ self.old.site }
        ensures state { self.new.state
            ≡ after (F.around self.old.site) self.old.state (Agreed side (half self.old.state side).generation offer) }
        ensures history { self.new.history ≡ self.old.history ++ Agreed side (half self.old.state side).generation offer
            ∷ [] }
    {
        let generation = self.side_generation(side);
        // For the proof alone: that a field is read says what the node keeps, of which the answer's truth follows.
        let _name = &self.name;
        self.answer = Some(Answer::Proposal(Proposal::new(task, same)));
        self.history.put(Event::Agreed(side, generation, offer));
    }

    /// Forbids the offer of a trial, and ends the trial.
    pub(crate) fn forbid(
        &mut self,
        _field: &F,
        side: Side,
        offer: Shared<F::Offer>,
        same: Shared<F::Offer>,
    ) -> Result<(), AllocError>
        requires tree { F.around self.old.site ≡ F.tree _field.now }
        requires spare { 0 < self.old.spare }
        requires same { same ≡ offer }
        requires lawful { MayForbid self.old.state side (half self.old.state side).generation offer }
        ensures site { self.new.site ≡ self.old.site }
        ensures state { OnOk result
            (self.new.state ≡ after (F.around self.old.site) self.old.state
            (Forbidden side (half self.old.state side).generation offer)) }
        ensures history { OnOk result
            (self.new.history ≡ self.old.history ++ Forbidden side (half self.old.state side).generation offer ∷ []) }
        ensures state_after_err { OnErr result (self.new.state ≡ self.old.state) }
        ensures history_after_err { OnErr result (self.new.history ≡ self.old.history) }
    {
        let generation = self.side_generation(side);
        // For the proof alone: the history is shorter than 2^63, and so a generation can rise by one.
        let _length = self.history.len();
        self.parts.forbid(side, same)?;
        self.trial = None;
        self.history.put(Event::Forbidden(side, generation, offer));
        Ok(())
    }

    /// Turns down what a side proposed to an earlier question.
    pub(crate) fn refuse(&mut self, _field: &F, side: Side)
        requires tree { F.around self.old.site ≡ F.tree _field.now }
        requires spare { 0 < self.old.spare }
        requires lawful { MayRefuse self.old.state side (half self.old.state side).generation }
        ensures site { self.new.site ≡ self.old.site }
        ensures state { self.new.state
            ≡ after (F.around self.old.site) self.old.state (Refused side (half self.old.state side).generation) }
        ensures history { self.new.history ≡ self.old.history ++ Refused side (half self.old.state side).generation
            ∷ [] }
    {
        let generation = self.side_generation(side);
        // For the proof alone: the history is shorter than 2^63, and so a generation can rise by one.
        let _length = self.history.len();
        self.parts.empty(side);
        self.history.put(Event::Refused(side, generation));
    }

    /// Answers that no offer does what the task seeks.
    pub(crate) fn give_up(&mut self, _field: &F, task: Shared<Task<F::Offer>>)
        requires tree { F.around self.old.site ≡ F.tree _field.now }
        requires spare { 0 < self.old.spare }
        requires held { self.old.state.held ≡ Some task }
        requires lawful { MayGiveUp (F.around self.old.site) self.old.state }
        ensures site { self.new.site ≡ self.old.site }
        ensures state { self.new.state ≡ after (F.around self.old.site) self.old.state GiveUp }
        ensures history { self.new.history ≡ self.old.history ++ GiveUp ∷ [] }
    {
        // For the proof alone: that a field is read says what the node keeps, of which the answer's truth follows.
        let _name = &self.name;
        self.answer = Some(Answer::Exhausted(Exhausted::new(task)));
        self.history.put(Event::Exhausted);
    }

    /// The task that is to be asked of a part next.
    pub(crate) fn task_for(
        &self,
        field: &F,
        side: Side,
        held: &Task<F::Offer>,
    ) -> Result<Task<F::Offer>, AllocError>
        requires tree { F.around self.now.site ≡ F.tree field.now }
        requires parted { (F.around self.now.site).parted self.now.state.name ≡ true }
        ensures { IfOk result (λ task. task ≡ task_for self.now.state held.now self.now.state.trial side) }
    {
        let generation = self.side_generation(side);
        let alloc = self.history.allocator();
        let node = part_name(field, &self.site, side);
        let (given, ban) = match &self.trial {
            None => {
                let forbidden = &self.parts.part(side).forbidden;
                (held.given.copy()?, held.ban.followed_by(alloc, forbidden)?)
            }
            Some(trial) => (trial.offer.copy()?, held.ban.copy()?),
        };
        Ok(Task {
            round: self.round,
            node,
            generation,
            given,
            ban,
        })
    }
}
