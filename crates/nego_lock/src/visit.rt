//! What one visit does to the state of a node.

ghost use Rattle.std.specs.Prelude.{
  ◌≡◌,
  ◌≢◌,
  ◌↔◌,
  ◌⊎◌,
  true,
  false,
  Some,
  None,
  IsSome,
  IfSome,
  IfOk,
  IsTrue,
  Ok,
  Err,
};
ghost use Rattle.nego_node.specs.Machine.{half, asked_in};
ghost use Rattle.nego_node.specs.Lawful.{task_of};
ghost use Rattle.nego_node.specs.Moves.{next_move, MayMove};
ghost use Rattle.nego_node.specs.Sound.{Belongs, Keeps};
ghost use Rattle.nego_node.specs.declared.misfits.Misfit.{Misfit as Refusal};
ghost use Rattle.nego_node.specs.declared.moves.Move.TheVariants as moves;
ghost use Rattle.nego_lock.specs.Visits.{
  MessageBelongs,
  OutgoingBelongs,
  IsRefused,
  IsAsBefore,
  DidEvent,
  DidVisit,
  new_answer,
  hands_no_task,
  IfDid,
  IfMisfit,
  IfQuiet,
  IfNoMemory,
};
ghost use Rattle.nego_lock.specs.declared.visit.Message.TheVariants as messages;
ghost use Rattle.nego_lock.specs.declared.visit.Outgoing.TheVariants as hands;
ghost use Rattle.nego_lock.specs.declared.visit.Visit.TheVariants as visits;
ghost use Rattle.nego_lock.specs.declared.visit.VisitError.TheVariants as errors;
ghost use Rattle.step_book.specs.declared.count.Draw.TheVariants as draws;

use containers::Shared;
use nego_laws::field::{Field, Offer};
use nego_node::answers::Answer;
use nego_node::misfits::Misfit;
use nego_node::moves::Move;
use nego_node::node::NodeState;
use nego_node::tasks::{Side, Task};
use std::alloc::AllocError;
use step_book::Draw;
use thiserror::Error;

/// What is brought to a node: a task of its parent, or the answer of a part.
#[derive(Drop)]
pub enum Message<F: Field> {
    Task(Shared<Task<F::Offer>>),
    Answer(Side, Answer<F::Offer>),
}

/// What a visit hands on: nothing, a task for a part, an answer for the parent, or the two parts that were opened.
#[derive(Drop)]
pub enum Outgoing<F: Field> {
    Nothing,
    Task(Shared<Task<F::Offer>>),
    Answer(Answer<F::Offer>),
    Sites(F::Site, F::Site),
}

/// What a visit came to.
#[derive(Drop)]
pub enum Visit<F: Field> {
    /// One event was done.
    Did(Outgoing<F>),
    /// The node has nothing to do but to wait for a message.
    Waits,
    /// The node is to try an item, and no try is left.
    Spent,
    /// The node refused the message.
    Misfit(Misfit<F::Offer>),
}

/// Why a visit did not end.
#[derive(Error, Debug, Drop)]
pub enum VisitError {
    #[error("the stop flag is set")]
    Stopped,
    #[error("out of memory")]
    OutOfMemory,
}

impl From<AllocError> for VisitError {
    ghost use Rattle.std.specs.Prelude.{◌≡◌};
    ghost use Rattle.nego_lock.specs.declared.visit.VisitError.TheVariants as errors;

    ghost from_gives = { λ _ r. r ≡ errors.OutOfMemory };

    fn from(_error: AllocError) -> VisitError {
        VisitError::OutOfMemory
    }
}

/// The node takes a task.
fn take_task<F: Field>(
    state: &mut NodeState<F>,
    field: &F,
    task: Shared<Task<F::Offer>>,
) -> Result<Visit<F>, VisitError>
    requires tree { F.around state.old.site ≡ F.tree field.now }
    requires belongs { Belongs F.Offer.tree (F.tree field.now) task }
    ensures site { state.new.site ≡ state.old.site }
    ensures did { IfDid result (λ out. DidVisit F.Offer.tree F.named (F.around state.old.site)
        (Some (messages.Task task)) state.old.state state.new.state state.old.history state.new.history out) }
    ensures belongs { IfDid result (OutgoingBelongs F.Offer.tree F.around (F.around state.old.site)) }
    ensures quiet { IfQuiet result
        (IsAsBefore state.old.state state.new.state state.old.history state.new.history) }
    ensures no_memory { IfNoMemory result
        (IsAsBefore state.old.state state.new.state state.old.history state.new.history
        ⊎ DidEvent {F = F} {S = F.Site} F.Offer.tree (F.around state.old.site) (Some (messages.Task task))
        state.old.state state.new.state state.old.history state.new.history) }
    ensures misfit { IfMisfit result (IsRefused {F = F} {S = F.Site} state.old.state (Some (messages.Task task))) }
    ensures refused { (misfit : Refusal F.Offer)
        → IsRefused {F = F} {S = F.Site} state.old.state (Some (messages.Task task)) misfit
        → (result ≡ Ok (visits.Misfit misfit)) ⊎ (result ≡ Err errors.OutOfMemory) }
    ensures not_stopped { result ≢ Err errors.Stopped }
    ensures not_spent { result ≢ Ok visits.Spent }
    ensures not_waiting { result ≢ Ok visits.Waits }
{
    state.reserve(1)?;
    match state.receive(field, task) {
        Ok(()) => Ok(Visit::Did(Outgoing::Nothing)),
        Err(misfit) => Ok(Visit::Misfit(misfit)),
    }
}

/// The node takes the answer of a part.
fn take_answer<F: Field>(
    state: &mut NodeState<F>,
    field: &F,
    side: Side,
    answer: Answer<F::Offer>,
) -> Result<Visit<F>, VisitError>
    requires tree { F.around state.old.site ≡ F.tree field.now }
    requires belongs { Belongs F.Offer.tree (F.tree field.now) (task_of answer) }
    requires keeps { Keeps F.Offer.tree (F.around state.old.site) state.old.state }
    ensures site { state.new.site ≡ state.old.site }
    ensures did { IfDid result (λ out. DidVisit F.Offer.tree F.named (F.around state.old.site)
        (Some (messages.Answer side answer)) state.old.state state.new.state state.old.history state.new.history out) }
    ensures belongs { IfDid result (OutgoingBelongs F.Offer.tree F.around (F.around state.old.site)) }
    ensures quiet { IfQuiet result
        (IsAsBefore state.old.state state.new.state state.old.history state.new.history) }
    ensures no_memory { IfNoMemory result
        (IsAsBefore state.old.state state.new.state state.old.history state.new.history
        ⊎ DidEvent {F = F} {S = F.Site} F.Offer.tree (F.around state.old.site) (Some (messages.Answer side answer))
        state.old.state state.new.state state.old.history state.new.history) }
    ensures misfit { IfMisfit result
        (IsRefused {F = F} {S = F.Site} state.old.state (Some (messages.Answer side answer))) }
    ensures refused { (misfit : Refusal F.Offer)
        → IsRefused {F = F} {S = F.Site} state.old.state (Some (messages.Answer side answer)) misfit
        → (result ≡ Ok (visits.Misfit misfit)) ⊎ (result ≡ Err errors.OutOfMemory) }
    ensures not_stopped { result ≢ Err errors.Stopped }
    ensures not_spent { result ≢ Ok visits.Spent }
    ensures not_waiting { result ≢ Ok visits.Waits }
{
    state.reserve(1)?;
    match state.post(field, side, answer) {
        Ok(()) => Ok(Visit::Did(Outgoing::Nothing)),
        Err(misfit) => Ok(Visit::Misfit(misfit)),
    }
}

/// The answer of a node, to be handed on, if it has one.
fn answer_out<F: Field>(state: &NodeState<F>) -> Result<Outgoing<F>, AllocError>
    ensures answer { IfOk result (λ out. out ≡ new_answer None state.now.state.answer) }
    ensures belongs { IfOk result (OutgoingBelongs F.Offer.tree F.around (F.around state.now.site)) }
{
    match state.answer() {
        None => Ok(Outgoing::Nothing),
        Some(answer) => {
            let same = answer.copy()?;
            Ok(Outgoing::Answer(same))
        }
    }
}

/// The task that a part is asked, to be handed on.
fn task_out<F: Field>(state: &NodeState<F>, side: Side) -> Result<Outgoing<F>, AllocError>
    requires { IsSome (asked_in (half state.now.state side).slot) }
    ensures task { IfOk result
        (λ out. IfSome (asked_in (half state.now.state side).slot) (λ task. out ≡ hands.Task task)) }
    ensures belongs { IfOk result (OutgoingBelongs F.Offer.tree F.around (F.around state.now.site)) }
{
    match state.child_task(side) {
        None => unreachable!(),
        Some(task) => {
            let same = task.copy()?;
            Ok(Outgoing::Task(same))
        }
    }
}

/// The node makes a move other than to try, to split and to ask.
fn advance<F: Field>(
    state: &mut NodeState<F>,
    field: &F,
    step: Move,
) -> Result<Visit<F>, VisitError>
    requires tree { F.around state.old.site ≡ F.tree field.now }
    requires step { step ≡ next_move (F.around state.old.site) true state.old.state }
    requires lawful { MayMove (F.around state.old.site) state.old.state step }
    requires kind { hands_no_task step ≡ true }
    ensures site { state.new.site ≡ state.old.site }
    ensures did { IfDid result (λ out. DidVisit F.Offer.tree F.named (F.around state.old.site)
        None state.old.state state.new.state state.old.history state.new.history out) }
    ensures belongs { IfDid result (OutgoingBelongs F.Offer.tree F.around (F.around state.old.site)) }
    ensures quiet { IfQuiet result
        (IsAsBefore state.old.state state.new.state state.old.history state.new.history) }
    ensures no_memory { IfNoMemory result
        (IsAsBefore state.old.state state.new.state state.old.history state.new.history
        ⊎ DidEvent {F = F} {S = F.Site} F.Offer.tree (F.around state.old.site) None
        state.old.state state.new.state state.old.history state.new.history) }
    ensures no_misfit { IfMisfit result (λ _. ⊥) }
    ensures not_stopped { result ≢ Err errors.Stopped }
    ensures not_spent { result ≢ Ok visits.Spent }
    ensures not_waiting { result ≢ Ok visits.Waits }
{
    state.advance(field, step)?;
    let out = answer_out(state)?;
    Ok(Visit::Did(out))
}

/// The node makes a move of its own.
fn make_move<F: Field>(
    state: &mut NodeState<F>,
    field: &F,
    step: Move,
) -> Result<Visit<F>, VisitError>
    requires tree { F.around state.old.site ≡ F.tree field.now }
    requires step { step ≡ next_move (F.around state.old.site) true state.old.state }
    requires lawful { step ≢ moves.Wait → MayMove (F.around state.old.site) state.old.state step }
    ensures site { state.new.site ≡ state.old.site }
    ensures did { IfDid result (λ out. DidVisit F.Offer.tree F.named (F.around state.old.site)
        None state.old.state state.new.state state.old.history state.new.history out) }
    ensures belongs { IfDid result (OutgoingBelongs F.Offer.tree F.around (F.around state.old.site)) }
    ensures quiet { IfQuiet result
        (IsAsBefore state.old.state state.new.state state.old.history state.new.history) }
    ensures no_memory { IfNoMemory result
        (IsAsBefore state.old.state state.new.state state.old.history state.new.history
        ⊎ DidEvent {F = F} {S = F.Site} F.Offer.tree (F.around state.old.site) None
        state.old.state state.new.state state.old.history state.new.history) }
    ensures waits { (result ≡ Ok visits.Waits) ↔ (step ≡ moves.Wait) }
    ensures no_misfit { IfMisfit result (λ _. ⊥) }
    ensures not_stopped { result ≢ Err errors.Stopped }
    ensures not_spent { result ≢ Ok visits.Spent }
{
    match step {
        Move::Wait => Ok(Visit::Waits),
        Move::Try => {
            state.tried(field)?;
            let out = answer_out(state)?;
            Ok(Visit::Did(out))
        }
        Move::Split => {
            let (left, right) = state.split_into(field)?;
            Ok(Visit::Did(Outgoing::Sites(left, right)))
        }
        Move::Ask(side) => {
            state.advance(field, step)?;
            let out = task_out(state, side)?;
            Ok(Visit::Did(out))
        }
        Move::Adopt(_) | Move::Agree | Move::Forbid | Move::Refuse | Move::Exhaust => {
            advance(state, field, step)
        }
    }
}

/// Whether no try could be drawn.
fn is_spent(drawn: Option<Draw>) -> bool
    ensures { IsTrue result ↔ (drawn ≡ Some draws.Spent) }
{
    matches!(drawn, Some(Draw::Spent))
}

/// Does at most one event on a state that is lent: it takes the message, or without one makes the eager next move, for
/// which a try is drawn before where it is to try an item. `Did` comes only where that one event was done. `Stopped`
/// comes exactly where the visit is stopped, `Waits` exactly where there is no message and nothing to do but to wait
/// for one, and `Spent` exactly where no try could be drawn. `Misfit` comes only where the message is refused; and a
/// message that is refused is answered by it, or by want of memory, since room for the event is made first. After
/// `Stopped`, `Misfit`, `Waits` and `Spent` state and history are as before. After want of memory they are, or the
/// event was done and what it hands on could not be copied.
pub fn visit_state<F: Field>(
    state: &mut NodeState<F>,
    field: &F,
    message: Option<Message<F>>,
    stopped: bool,
    drawn: Option<Draw>,
) -> Result<Visit<F>, VisitError>
    requires tree { F.around state.old.site ≡ F.tree field.now }
    requires message { IfSome message (MessageBelongs F.Offer.tree (F.tree field.now)) }
    requires drawn { IsSome drawn ↔ ((stopped ≡ false) × (message ≡ None)
        × (next_move (F.around state.old.site) true state.old.state ≡ moves.Try)) }
    ensures site { state.new.site ≡ state.old.site }
    ensures did { IfDid result (λ out. DidVisit F.Offer.tree F.named (F.around state.old.site)
        message state.old.state state.new.state state.old.history state.new.history out) }
    ensures belongs { IfDid result (OutgoingBelongs F.Offer.tree F.around (F.around state.old.site)) }
    ensures quiet { IfQuiet result
        (IsAsBefore state.old.state state.new.state state.old.history state.new.history) }
    ensures no_memory { IfNoMemory result
        (IsAsBefore state.old.state state.new.state state.old.history state.new.history
        ⊎ DidEvent {F = F} {S = F.Site} F.Offer.tree (F.around state.old.site) message
        state.old.state state.new.state state.old.history state.new.history) }
    ensures stopped { (result ≡ Err errors.Stopped) ↔ (stopped ≡ true) }
    ensures waits { (result ≡ Ok visits.Waits) ↔ ((stopped ≡ false) × (message ≡ None)
        × (next_move (F.around state.old.site) true state.old.state ≡ moves.Wait)) }
    ensures spent { (result ≡ Ok visits.Spent) ↔ (drawn ≡ Some draws.Spent) }
    ensures misfit { IfMisfit result
        (λ misfit. (stopped ≡ false) × IsRefused {F = F} {S = F.Site} state.old.state message misfit) }
    ensures refused { (misfit : Refusal F.Offer) → stopped ≡ false
        → IsRefused {F = F} {S = F.Site} state.old.state message misfit
        → (result ≡ Ok (visits.Misfit misfit)) ⊎ (result ≡ Err errors.OutOfMemory) }
{
    if stopped {
        return Err(VisitError::Stopped);
    }
    match message {
        Some(Message::Task(task)) => take_task(state, field, task),
        Some(Message::Answer(side, answer)) => {
            // For the proof alone: that the history is read says what the node keeps.
            let _kept = state.history();
            take_answer(state, field, side, answer)
        }
        None => {
            if is_spent(drawn) {
                return Ok(Visit::Spent);
            }
            let step = state.next_move(field, true);
            make_move(state, field, step)
        }
    }
}
