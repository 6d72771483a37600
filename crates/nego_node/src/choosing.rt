//! Which moves are lawful, and which one is next.

ghost use Rattle.std.specs.Prelude.{◌≡◌, ◌≢◌, ◌↔◌, ◌&&◌, not, true, IsTrue, Some, is_some};
ghost use Rattle.nego_node.specs.Machine.{half, other, generation_of, answered_in};
ghost use Rattle.nego_node.specs.Moves.{
  seeks,
  is_exhausted,
  on_trial_in,
  is_present,
  is_spent,
  next_move,
  move_without_trial,
  move_in_trial,
  MayMove,
  OnlyMessages,
};
ghost use Rattle.nego_node.specs.Decisions.{
  has_tried_all,
  leaves_free,
  allows,
  may_ask,
  may_adopt,
  may_agree,
  may_forbid,
  may_refuse,
  may_give_up,
  may_move,
};
ghost use Rattle.nego_node.specs.declared.moves.Move.TheVariants.{Wait as Waiting};

use crate::answers::Answer;
use crate::bans::entails_some;
use crate::moves::Move;
use crate::node::NodeState;
use crate::tasks::Side;
use nego_laws::field::Field;

/// Whether a side may be asked beside the trial of a side, if there is one.
fn leaves_free(trial: Option<Side>, side: Side) -> bool
    ensures { result ≡ leaves_free trial side }
{
    match (trial, side) {
        (None, _) => true,
        (Some(Side::Left), Side::Right) | (Some(Side::Right), Side::Left) => true,
        _ => false,
    }
}

impl<F: Field> NodeState<F> {
    /// Whether the node holds a task that it has not answered.
    fn seeks(&self) -> bool
        ensures { result ≡ seeks self.now.state }
    {
        self.held_task().is_some() && self.answer().is_none()
    }

    /// Whether a part is asked a task.
    fn is_filled(&self, side: Side) -> bool
        ensures { result ≡ is_some (half self.now.state side).slot }
    {
        self.parts.part(side).slot.is_some()
    }

    /// Whether a part has answered that no offer does.
    fn is_exhausted(&self, side: Side) -> bool
        ensures { result ≡ is_exhausted (answered_in (half self.now.state side).slot) }
    {
        match self.child_answer(side) {
            None => false,
            Some(answer) => match answer {
                Answer::Proposal(_) => false,
                Answer::Exhausted(_) => true,
            },
        }
    }

    /// Whether a part is asked for a trial.
    fn is_on_trial(&self, side: Side) -> bool
        ensures { result ≡ on_trial_in (half self.now.state side).slot }
    {
        match &self.parts.part(side).slot {
            None => false,
            Some(asking) => asking.on_trial,
        }
    }

    /// Whether a part was asked for a trial under the held task.
    fn is_present(&self, side: Side) -> bool
        ensures { result ≡ is_present (generation_of self.now.state.held) (half self.now.state side).slot }
    {
        let generation = self.held_generation();
        match &self.parts.part(side).slot {
            None => false,
            Some(asking) => asking.on_trial && asking.asked == generation,
        }
    }

    /// Whether a part that was asked without a trial has answered that no offer does.
    fn is_spent(&self, side: Side) -> bool
        ensures { result ≡ is_spent (half self.now.state side).slot }
    {
        self.is_exhausted(side) && !self.is_on_trial(side)
    }

    /// The next move of a node that has split and has no trial.
    fn move_without_trial(&self, eager: bool) -> Move
        ensures { result ≡ move_without_trial eager self.now.state }
    {
        if self.is_spent(Side::Left) || self.is_spent(Side::Right) {
            Move::Exhaust
        } else if self.has_proposal(Side::Left) {
            Move::Adopt(Side::Left)
        } else if self.has_proposal(Side::Right) {
            Move::Adopt(Side::Right)
        } else if !self.is_filled(Side::Left) {
            Move::Ask(Side::Left)
        } else if eager && !self.is_filled(Side::Right) {
            Move::Ask(Side::Right)
        } else {
            Move::Wait
        }
    }

    /// The next move of a node in a trial, where the side is the other one than the trial's.
    fn move_in_trial(&self, side: Side) -> Move
        ensures { result ≡ move_in_trial self.now.state side }
    {
        if !self.is_filled(side) {
            Move::Ask(side)
        } else if self.has_proposal(side) {
            if self.is_present(side) {
                Move::Agree
            } else {
                Move::Refuse
            }
        } else if self.is_exhausted(side) && self.is_on_trial(side) {
            Move::Forbid
        } else {
            Move::Wait
        }
    }

    /// The first move that fits.
    fn first_move(&self, field: &F, eager: bool) -> Move
        requires tree { F.around self.now.site ≡ F.tree field.now }
        ensures { result ≡ next_move (F.around self.now.site) eager self.now.state }
    {
        if !self.seeks() {
            return Move::Wait;
        }
        if self.next < field.items(&self.site) {
            return Move::Try;
        }
        if !field.has_parts(&self.site) {
            return Move::Exhaust;
        }
        if !self.has_split {
            return Move::Split;
        }
        match self.trial_side() {
            None => self.move_without_trial(eager),
            Some(side) => self.move_in_trial(side.other()),
        }
    }

    /// The next move: the first that fits. Without an open task wait; while an item is left try it; without parts give
    /// up; split. Without a trial give up where a side that was asked without one is exhausted, adopt a proposal, the
    /// left one first, ask the left side, and, who is eager, the right one too. In a trial ask the other side, or do
    /// what its answer calls for. The move is lawful unless it is Wait, and who is eager waits only where nothing is
    /// lawful but to take a message. It takes no memory.
    pub fn next_move(&self, field: &F, eager: bool) -> Move
        requires tree { F.around self.now.site ≡ F.tree field.now }
        ensures next { result ≡ next_move (F.around self.now.site) eager self.now.state }
        ensures lawful { result ≢ Waiting → MayMove (F.around self.now.site) self.now.state result }
        ensures waits { eager ≡ true → result ≡ Waiting
            → OnlyMessages F.Offer.tree (F.around self.now.site) self.now.state }
    {
        // For the proof alone: that a field is read says what the node keeps, of which it follows that the move is
        // lawful.
        let _name = &self.name;
        self.first_move(field, eager)
    }

    /// Whether the node has tried all items under a task that it has not answered.
    fn has_tried_all(&self, field: &F) -> bool
        requires tree { F.around self.now.site ≡ F.tree field.now }
        ensures { result ≡ has_tried_all (F.around self.now.site) self.now.state }
    {
        self.seeks() && self.next == field.items(&self.site)
    }

    /// Whether a part has a proposal whose offer entails nothing that is banned or forbidden.
    fn allows(&self, field: &F, side: Side) -> bool
        requires tree { F.around self.now.site ≡ F.tree field.now }
        ensures { result ≡ allows (F.around self.now.site) self.now.state side }
    {
        let task = match self.held_task() {
            None => return false,
            Some(task) => task,
        };
        let offer = match self.proposed(side) {
            None => return false,
            Some(offer) => offer.get(),
        };
        !entails_some(field, offer, task.ban.as_slice())
            && !entails_some(field, offer, self.forbidden(side))
    }

    /// Whether a side may be asked.
    fn may_ask(&self, field: &F, side: Side) -> bool
        requires tree { F.around self.now.site ≡ F.tree field.now }
        ensures { result ≡ may_ask (F.around self.now.site) self.now.state side }
    {
        self.has_tried_all(field)
            && self.has_split
            && !self.is_filled(side)
            && leaves_free(self.trial_side(), side)
    }

    /// Whether the proposal of a side may be put to the other one.
    fn may_adopt(&self, field: &F, side: Side) -> bool
        requires tree { F.around self.now.site ≡ F.tree field.now }
        ensures { result ≡ may_adopt (F.around self.now.site) self.now.state side }
    {
        self.seeks()
            && self.trial.is_none()
            && !self.is_exhausted(side.other())
            && self.allows(field, side)
    }

    /// Whether the other side than that of the trial agrees, with an offer that is allowed.
    fn may_agree(&self, field: &F, trial: Option<Side>) -> bool
        requires tree { F.around self.now.site ≡ F.tree field.now }
        ensures { result ≡ may_agree (F.around self.now.site) self.now.state trial }
    {
        match trial {
            None => false,
            Some(side) => self.seeks()
                && self.is_present(side.other())
                && self.allows(field, side.other()),
        }
    }

    /// Whether the other side than that of the trial has answered that no offer does, to what it was asked for the
    /// trial.
    fn may_forbid(&self, trial: Option<Side>) -> bool
        ensures { result ≡ may_forbid (F.around self.now.site) self.now.state trial }
    {
        match trial {
            None => false,
            Some(side) => self.seeks()
                && self.is_exhausted(side.other())
                && self.is_on_trial(side.other()),
        }
    }

    /// Whether the other side than that of the trial has a proposal that it was not asked for under the held task.
    fn may_refuse(&self, trial: Option<Side>) -> bool
        ensures { result ≡ may_refuse (F.around self.now.site) self.now.state trial }
    {
        match trial {
            None => false,
            Some(side) => self.seeks()
                && self.has_proposal(side.other())
                && !self.is_present(side.other()),
        }
    }

    /// Whether the node may answer that no offer does.
    fn may_give_up(&self, field: &F) -> bool
        requires tree { F.around self.now.site ≡ F.tree field.now }
        ensures { result ≡ may_give_up (F.around self.now.site) self.now.state }
    {
        self.has_tried_all(field)
            && (!field.has_parts(&self.site)
                || self.trial.is_none()
                    && (self.is_spent(Side::Left) || self.is_spent(Side::Right)))
    }

    /// Whether a move is lawful. Waiting is no move, and so never is. It takes no memory.
    pub fn lawful(&self, field: &F, step: Move) -> bool
        requires tree { F.around self.now.site ≡ F.tree field.now }
        ensures { IsTrue result ↔ MayMove (F.around self.now.site) self.now.state step }
    {
        // For the proof alone: that a field is read says what the node keeps, of which the equivalence follows.
        let _name = &self.name;
        self.may_move(field, step)
    }

    /// Whether a move is lawful, as a test of the state.
    fn may_move(&self, field: &F, step: Move) -> bool
        requires tree { F.around self.now.site ≡ F.tree field.now }
        ensures { result ≡ may_move (F.around self.now.site) self.now.state step }
    {
        match step {
            Move::Wait => false,
            Move::Try => self.seeks() && self.next < field.items(&self.site),
            Move::Split => {
                self.has_tried_all(field) && field.has_parts(&self.site) && !self.has_split
            }
            Move::Ask(side) => self.may_ask(field, side),
            Move::Adopt(side) => self.may_adopt(field, side),
            Move::Agree => self.may_agree(field, self.trial_side()),
            Move::Forbid => self.may_forbid(self.trial_side()),
            Move::Refuse => self.may_refuse(self.trial_side()),
            Move::Exhaust => self.may_give_up(field),
        }
    }
}
