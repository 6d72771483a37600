//! The answers of parts that a node takes.

ghost use Rattle.std.specs.Prelude.{
  ◌≡◌,
  [],
  ◌++◌,
  ◌∷◌,
  ◌<◌,
  ◌≤◌,
  ◌+◌,
  ◌↔◌,
  All,
  Some,
  IsTrue,
  OnOk,
  IfErr,
  OnErr,
  length,
};
ghost use Rattle.nego_node.specs.Machine.{after, half, asked_in};
ghost use Rattle.nego_node.specs.Lawful.{MayPost, task_of};
ghost use Rattle.nego_node.specs.Sound.{Belongs, IsTrueAnswer};
ghost use Rattle.nego_node.specs.Refusals.{RefusesAnswer};
ghost use Rattle.nego_node.specs.declared.events.Event.TheVariants.{Posted};

use crate::answers::Answer;
use crate::bans::same_task;
use crate::events::Event;
use crate::misfits::Misfit;
use crate::node::NodeState;
use crate::tasks::{Side, Task};
use nego_laws::field::{Field, Offer};

impl<F: Field> NodeState<F> {
    /// Keeps the answer to what was asked of a part.
    fn keep(&mut self, _field: &F, side: Side, answer: Answer<F::Offer>)
        requires tree { F.around self.old.site ≡ F.tree _field.now }
        requires spare { 0 < self.old.spare }
        requires lawful { MayPost self.old.state side answer }
        requires truth { IsTrueAnswer F.Offer.tree (F.around self.old.site) answer }
        ensures site { self.new.site ≡ self.old.site }
        ensures state { self.new.state ≡ after (F.around self.old.site) self.old.state (Posted side answer) }
        ensures history { self.new.history ≡ self.old.history ++ Posted side answer ∷ [] }
        ensures spare { self.old.spare ≤ self.new.spare + 1 }
    {
        let place = self.history.len();
        self.parts.mark(side, place);
        self.history.put(Event::Posted(side, answer));
    }

    /// Whether the part is asked that very task at present.
    fn is_asked(&self, field: &F, side: Side, task: &Task<F::Offer>) -> bool
        requires tree { F.around self.now.site ≡ F.tree field.now }
        requires belongs { Belongs F.Offer.tree (F.around self.now.site) task.now }
        ensures { IsTrue result ↔ (asked_in (half self.now.state side).slot ≡ Some task.now) }
    {
        match self.child_task(side) {
            None => false,
            Some(asked) => same_task(field, asked.get(), task),
        }
    }

    /// Takes the answer of a part. It uses the room of one event, and none where it refuses the answer. `Stale` comes
    /// exactly where the answer's generation differs from the side's, `Stranger` exactly where they agree and the part
    /// is not asked that very task, and `Twice` exactly where it is and has answered it.
    pub fn post(
        &mut self,
        field: &F,
        side: Side,
        answer: Answer<F::Offer>,
    ) -> Result<(), Misfit<F::Offer>>
        requires tree { F.around self.old.site ≡ F.tree field.now }
        requires belongs { Belongs F.Offer.tree (F.tree field.now) (task_of answer) }
        requires spare { 0 < self.old.spare }
        ensures site { self.new.site ≡ self.old.site }
        ensures lawful { OnOk result (MayPost self.old.state side answer) }
        ensures state { OnOk result (self.new.state ≡ after (F.tree field.now) self.old.state (Posted side answer)) }
        ensures history { OnOk result (self.new.history ≡ self.old.history ++ Posted side answer ∷ []) }
        ensures spare { OnOk result (self.old.spare ≤ self.new.spare + 1) }
        ensures refused { IfErr result (λ misfit. RefusesAnswer self.old.state side answer misfit) }
        ensures state_after_err { OnErr result (self.new.state ≡ self.old.state) }
        ensures history_after_err { OnErr result (self.new.history ≡ self.old.history) }
        ensures spare_after_err { OnErr result (self.new.spare ≡ self.old.spare) }
    {
        let generation = self.side_generation(side);
        let brought = answer.task().get();
        if brought.generation != generation {
            return Err(Misfit::Stale {
                held: generation,
                brought: brought.generation,
            });
        }
        if !self.is_asked(field, side, brought) {
            return Err(Misfit::Stranger {
                round: self.round,
                node: self.name,
                brought: answer.into_task(),
            });
        }
        if self.has_answer(side) {
            return Err(Misfit::Twice { generation });
        }
        self.keep(field, side, answer);
        Ok(())
    }
}
