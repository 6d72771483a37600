//! The tasks that a node takes.

ghost use Rattle.std.specs.Prelude.{◌≡◌, [], ◌++◌, ◌∷◌, ◌<◌, ◌≤◌, ◌+◌, true, false, OnOk, IfErr, OnErr};
ghost use Rattle.nego_node.specs.Machine.{after, goes_on, resumed, fresh};
ghost use Rattle.nego_node.specs.Lawful.{MayReceive};
ghost use Rattle.nego_node.specs.Sound.{Belongs};
ghost use Rattle.nego_node.specs.Refusals.{Refuses};
ghost use Rattle.nego_node.specs.declared.events.Event.TheVariants.{Received};

use crate::answers::Answer;
use crate::bans::can_go_on;
use crate::events::Event;
use crate::misfits::Misfit;
use crate::node::NodeState;
use crate::tasks::Task;
use containers::Shared;
use nego_laws::field::{Field, Offer};

impl<F: Field> NodeState<F> {
    /// Whether the node can go on with what it has under a new task.
    fn goes_on(&self, field: &F, task: &Task<F::Offer>) -> bool
        requires tree { F.around self.now.site ≡ F.tree field.now }
        requires belongs { Belongs F.Offer.tree (F.tree field.now) task.now }
        ensures { result ≡ goes_on (F.tree field.now) self.now.state.held self.now.state.answer task.now }
    {
        let held = match self.held_task() {
            None => return false,
            Some(held) => held,
        };
        let answer = match &self.answer {
            None => return false,
            Some(answer) => answer,
        };
        match answer {
            Answer::Proposal(proposal) => can_go_on(field, held, proposal.offer().get(), task),
            Answer::Exhausted(_) => false,
        }
    }

    /// Keeps all but the task and the answer.
    fn resume(&mut self, _field: &F, task: Shared<Task<F::Offer>>)
        requires tree { F.around self.old.site ≡ F.tree _field.now }
        requires spare { 0 < self.old.spare }
        requires lawful { MayReceive self.old.state task }
        requires belongs { Belongs F.Offer.tree (F.around self.old.site) task }
        requires goes_on { goes_on (F.around self.old.site) self.old.state.held self.old.state.answer task ≡ true }
        ensures site { self.new.site ≡ self.old.site }
        ensures state { self.new.state ≡ resumed self.old.state task }
        ensures history { self.new.history ≡ self.old.history ++ Received task ∷ [] }
        ensures spare { self.old.spare ≤ self.new.spare + 1 }
    {
        let place = self.history.len();
        self.history.put(Event::Received(task));
        self.held = Some(place);
        self.answer = None;
    }

    /// Begins anew under a task, which cancels what was asked below.
    fn start(&mut self, _field: &F, task: Shared<Task<F::Offer>>)
        requires tree { F.around self.old.site ≡ F.tree _field.now }
        requires spare { 0 < self.old.spare }
        requires lawful { MayReceive self.old.state task }
        requires belongs { Belongs F.Offer.tree (F.around self.old.site) task }
        requires goes_on { goes_on (F.around self.old.site) self.old.state.held self.old.state.answer task ≡ false }
        ensures site { self.new.site ≡ self.old.site }
        ensures state { self.new.state ≡ fresh self.old.state task }
        ensures history { self.new.history ≡ self.old.history ++ Received task ∷ [] }
        ensures spare { self.old.spare ≤ self.new.spare + 1 }
    {
        let alloc = self.history.allocator();
        let place = self.history.len();
        self.parts.clear(alloc);
        self.history.put(Event::Received(task));
        self.held = Some(place);
        self.next = 0;
        self.trial = None;
        self.answer = None;
    }

    /// Takes a task, which must be newer than the held one. The node resumes where it answered a proposal under the
    /// same given offer and the new ban bans what the held one did and the proposal too. Else it begins anew, which
    /// cancels what was asked below. It uses the room of one event, and none where it refuses the task. `Stale` comes
    /// exactly where the task is not newer, `Stranger` exactly where it is newer and of another round or node.
    pub fn receive(
        &mut self,
        field: &F,
        task: Shared<Task<F::Offer>>,
    ) -> Result<(), Misfit<F::Offer>>
        requires tree { F.around self.old.site ≡ F.tree field.now }
        requires belongs { Belongs F.Offer.tree (F.tree field.now) task }
        requires spare { 0 < self.old.spare }
        ensures site { self.new.site ≡ self.old.site }
        ensures lawful { OnOk result (MayReceive self.old.state task) }
        ensures state { OnOk result (self.new.state ≡ after (F.tree field.now) self.old.state (Received task)) }
        ensures history { OnOk result (self.new.history ≡ self.old.history ++ Received task ∷ []) }
        ensures spare { OnOk result (self.old.spare ≤ self.new.spare + 1) }
        ensures refused { IfErr result (λ misfit. Refuses self.old.state task misfit) }
        ensures state_after_err { OnErr result (self.new.state ≡ self.old.state) }
        ensures history_after_err { OnErr result (self.new.history ≡ self.old.history) }
        ensures spare_after_err { OnErr result (self.new.spare ≡ self.old.spare) }
    {
        let held = self.held_generation();
        let brought = task.get();
        if brought.generation <= held {
            return Err(Misfit::Stale {
                held,
                brought: brought.generation,
            });
        }
        if brought.round != self.round || brought.node != self.name {
            return Err(Misfit::Stranger {
                round: self.round,
                node: self.name,
                brought: task,
            });
        }
        if self.goes_on(field, brought) {
            self.resume(field, task);
        } else {
            self.start(field, task);
        }
        Ok(())
    }
}
