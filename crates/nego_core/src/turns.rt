//! What one node does in a turn.

ghost use Rattle.std.specs.Prelude.{◌≡◌, ◌≢◌, ◌↔◌, IsTrue, IfOk};
ghost use Rattle.nego_node.specs.Lawful.{MayReceive, MayPost, task_of};
ghost use Rattle.nego_node.specs.Moves.{IsOf, MayMove};
ghost use Rattle.nego_node.specs.Sound.{Belongs, Keeps};
ghost use Rattle.nego_node.specs.declared.moves.Move.TheVariants as moves;
ghost use Rattle.nego_node.specs.declared.events.Event.TheVariants.{Received, Posted};
ghost use Rattle.nego_core.specs.Turns.{Turn};

use containers::Shared;
use nego_laws::field::{Field, Offer};
use nego_node::answers::Answer;
use nego_node::moves::Move;
use nego_node::node::NodeState;
use nego_node::tasks::{Side, Task};
use std::alloc::AllocError;

/// The node takes a task. The answer is whether that is lawful.
pub(crate) fn take<F: Field>(
    field: &F,
    node: &mut NodeState<F>,
    task: Shared<Task<F::Offer>>,
) -> Result<bool, AllocError>
    requires tree { F.around node.old.site ≡ F.tree field.now }
    requires belongs { Belongs F.Offer.tree (F.tree field.now) task }
    ensures site { node.new.site ≡ node.old.site }
    ensures turn { IfOk result
        (λ did. Turn F.Offer.tree (F.tree field.now) (λ e. e ≡ Received task)
        (MayReceive node.old.state task) did node.old.state node.new.state node.old.history node.new.history) }
{
    node.reserve(1)?;
    match node.receive(field, task) {
        Ok(()) => Ok(true),
        Err(_) => Ok(false),
    }
}

/// The node takes the answer of a part. The answer is whether that is lawful.
pub(crate) fn accept<F: Field>(
    field: &F,
    node: &mut NodeState<F>,
    side: Side,
    answer: Answer<F::Offer>,
) -> Result<bool, AllocError>
    requires tree { F.around node.old.site ≡ F.tree field.now }
    requires belongs { Belongs F.Offer.tree (F.tree field.now) (task_of answer) }
    requires keeps { Keeps F.Offer.tree (F.tree field.now) node.old.state }
    ensures site { node.new.site ≡ node.old.site }
    ensures turn { IfOk result
        (λ did. Turn F.Offer.tree (F.tree field.now) (λ e. e ≡ Posted side answer)
        (MayPost node.old.state side answer) did node.old.state node.new.state node.old.history node.new.history) }
{
    node.reserve(1)?;
    match node.post(field, side, answer) {
        Ok(()) => Ok(true),
        Err(_) => Ok(false),
    }
}

/// Whether the move is to try an item.
fn is_try(step: Move) -> bool
    ensures { IsTrue result ↔ (step ≡ moves.Try) }
{
    matches!(step, Move::Try)
}

/// The node makes a move other than to split. The answer is whether that is lawful.
pub(crate) fn make<F: Field>(
    field: &F,
    node: &mut NodeState<F>,
    step: Move,
) -> Result<bool, AllocError>
    requires tree { F.around node.old.site ≡ F.tree field.now }
    requires no_split { step ≢ moves.Split }
    ensures site { node.new.site ≡ node.old.site }
    ensures turn { IfOk result
        (λ did. Turn F.Offer.tree (F.around node.old.site) (IsOf step)
        (MayMove (F.around node.old.site) node.old.state step) did
        node.old.state node.new.state node.old.history node.new.history) }
{
    if !node.lawful(field, step) {
        return Ok(false);
    }
    if is_try(step) {
        node.tried(field)?;
    } else {
        node.advance(field, step)?;
    }
    Ok(true)
}
