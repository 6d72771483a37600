//! The moves of a node other than to try an item and to split.

ghost use Rattle.std.specs.Prelude.{◌≡◌, ◌≢◌, [], ◌++◌, ◌∷◌, ◌<◌, OnOk, OnErr};
ghost use Rattle.nego_node.specs.Moves.{MayMove, Did};
ghost use Rattle.nego_node.specs.declared.moves.Move.TheVariants as moves;

use crate::moves::Move;
use crate::node::NodeState;
use crate::tasks::Side;
use containers::Shared;
use nego_laws::field::{Field, Offer};
use std::alloc::AllocError;

impl<F: Field> NodeState<F> {
    /// Asks a part.
    fn do_ask(&mut self, field: &F, side: Side) -> Result<(), AllocError>
        requires tree { F.around self.old.site ≡ F.tree field.now }
        requires spare { 0 < self.old.spare }
        requires lawful { MayMove (F.around self.old.site) self.old.state (moves.Ask side) }
        ensures site { self.new.site ≡ self.old.site }
        ensures did { OnOk result (Did F.Offer.tree (F.around self.old.site)
            (moves.Ask side) self.old.state self.new.state self.old.history self.new.history) }
        ensures state_after_err { OnErr result (self.new.state ≡ self.old.state) }
        ensures history_after_err { OnErr result (self.new.history ≡ self.old.history) }
    {
        let held = self.held_copy()?;
        let alloc = self.history.allocator();
        let task = Shared::new(alloc, self.task_for(field, side, held.get())?)?;
        let same = task.copy()?;
        self.ask(field, side, task, same);
        Ok(())
    }

    /// Puts the proposal of a part to the other one.
    fn do_adopt(&mut self, field: &F, side: Side) -> Result<(), AllocError>
        requires tree { F.around self.old.site ≡ F.tree field.now }
        requires spare { 0 < self.old.spare }
        requires lawful { MayMove (F.around self.old.site) self.old.state (moves.Adopt side) }
        ensures site { self.new.site ≡ self.old.site }
        ensures did { OnOk result (Did F.Offer.tree (F.around self.old.site)
            (moves.Adopt side) self.old.state self.new.state self.old.history self.new.history) }
        ensures state_after_err { OnErr result (self.new.state ≡ self.old.state) }
        ensures history_after_err { OnErr result (self.new.history ≡ self.old.history) }
    {
        let offer = match self.proposed(side) {
            None => unreachable!(),
            Some(offer) => offer.copy()?,
        };
        let same = offer.copy()?;
        let stays = self.has_proposal(side.other());
        self.adopt(field, side, offer, same, stays);
        Ok(())
    }

    /// Answers the offer with which the other side of the trial agrees.
    fn do_agree(&mut self, field: &F) -> Result<(), AllocError>
        requires tree { F.around self.old.site ≡ F.tree field.now }
        requires spare { 0 < self.old.spare }
        requires lawful { MayMove (F.around self.old.site) self.old.state moves.Agree }
        ensures site { self.new.site ≡ self.old.site }
        ensures did { OnOk result (Did F.Offer.tree
            (F.around self.old.site) moves.Agree self.old.state self.new.state self.old.history self.new.history) }
        ensures state_after_err { OnErr result (self.new.state ≡ self.old.state) }
        ensures history_after_err { OnErr result (self.new.history ≡ self.old.history) }
    {
        let side = match self.trial_side() {
            None => unreachable!(),
            Some(side) => side.other(),
        };
        let offer = match self.proposed(side) {
            None => unreachable!(),
            Some(offer) => offer.copy()?,
        };
        let same = offer.copy()?;
        let task = self.held_copy()?;
        self.agree(field, side, task, offer, same);
        Ok(())
    }

    /// Forbids the offer of the trial.
    fn do_forbid(&mut self, field: &F) -> Result<(), AllocError>
        requires tree { F.around self.old.site ≡ F.tree field.now }
        requires spare { 0 < self.old.spare }
        requires lawful { MayMove (F.around self.old.site) self.old.state moves.Forbid }
        ensures site { self.new.site ≡ self.old.site }
        ensures did { OnOk result (Did F.Offer.tree
            (F.around self.old.site) moves.Forbid self.old.state self.new.state self.old.history self.new.history) }
        ensures state_after_err { OnErr result (self.new.state ≡ self.old.state) }
        ensures history_after_err { OnErr result (self.new.history ≡ self.old.history) }
    {
        let side = match self.trial_side() {
            None => unreachable!(),
            Some(side) => side,
        };
        let offer = match self.trial_offer() {
            None => unreachable!(),
            Some(offer) => offer.copy()?,
        };
        let same = offer.copy()?;
        self.forbid(field, side, offer, same)
    }

    /// Turns down what the other side of the trial proposed.
    fn do_refuse(&mut self, field: &F) -> Result<(), AllocError>
        requires tree { F.around self.old.site ≡ F.tree field.now }
        requires spare { 0 < self.old.spare }
        requires lawful { MayMove (F.around self.old.site) self.old.state moves.Refuse }
        ensures site { self.new.site ≡ self.old.site }
        ensures did { OnOk result (Did F.Offer.tree
            (F.around self.old.site) moves.Refuse self.old.state self.new.state self.old.history self.new.history) }
        ensures state_after_err { OnErr result (self.new.state ≡ self.old.state) }
        ensures history_after_err { OnErr result (self.new.history ≡ self.old.history) }
    {
        let side = match self.trial_side() {
            None => unreachable!(),
            Some(side) => side.other(),
        };
        self.refuse(field, side);
        Ok(())
    }

    /// Answers that no offer does what the task seeks.
    fn do_exhaust(&mut self, field: &F) -> Result<(), AllocError>
        requires tree { F.around self.old.site ≡ F.tree field.now }
        requires spare { 0 < self.old.spare }
        requires lawful { MayMove (F.around self.old.site) self.old.state moves.Exhaust }
        ensures site { self.new.site ≡ self.old.site }
        ensures did { OnOk result (Did F.Offer.tree
            (F.around self.old.site) moves.Exhaust self.old.state self.new.state self.old.history self.new.history) }
        ensures state_after_err { OnErr result (self.new.state ≡ self.old.state) }
        ensures history_after_err { OnErr result (self.new.history ≡ self.old.history) }
    {
        let task = self.held_copy()?;
        self.give_up(field, task);
        Ok(())
    }

    /// Does a lawful move other than Try and Split, where there is room for its event.
    fn do_move(&mut self, field: &F, step: Move) -> Result<(), AllocError>
        requires tree { F.around self.old.site ≡ F.tree field.now }
        requires spare { 0 < self.old.spare }
        requires lawful { MayMove (F.around self.old.site) self.old.state step }
        requires no_try { step ≢ moves.Try }
        requires no_split { step ≢ moves.Split }
        ensures site { self.new.site ≡ self.old.site }
        ensures did { OnOk result (Did F.Offer.tree
            (F.around self.old.site) step self.old.state self.new.state self.old.history self.new.history) }
        ensures state_after_err { OnErr result (self.new.state ≡ self.old.state) }
        ensures history_after_err { OnErr result (self.new.history ≡ self.old.history) }
    {
        match step {
            Move::Ask(side) => self.do_ask(field, side),
            Move::Adopt(side) => self.do_adopt(field, side),
            Move::Agree => self.do_agree(field),
            Move::Forbid => self.do_forbid(field),
            Move::Refuse => self.do_refuse(field),
            Move::Exhaust => self.do_exhaust(field),
            Move::Wait | Move::Try | Move::Split => unreachable!(),
        }
    }

    /// Does a lawful move other than Try and Split, by one event.
    pub fn advance(&mut self, field: &F, step: Move) -> Result<(), AllocError>
        requires tree { F.around self.old.site ≡ F.tree field.now }
        requires lawful { MayMove (F.around self.old.site) self.old.state step }
        requires no_try { step ≢ moves.Try }
        requires no_split { step ≢ moves.Split }
        ensures site { self.new.site ≡ self.old.site }
        ensures did { OnOk result (Did F.Offer.tree
            (F.around self.old.site) step self.old.state self.new.state self.old.history self.new.history) }
        ensures state_after_err { OnErr result (self.new.state ≡ self.old.state) }
        ensures history_after_err { OnErr result (self.new.history ≡ self.old.history) }
    {
        self.reserve(1)?;
        self.do_move(field, step)
    }
}
