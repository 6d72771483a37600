//! What passes between a node and its parts.

ghost use Rattle.std.specs.Prelude.{◌≡◌, ◌≢◌, false, Some, IsSome, is_some, OnOk};
ghost use Rattle.nego_node.specs.Board.{with_event};
ghost use Rattle.nego_node.specs.Lawful.{MayReceive, MayPost, task_of};
ghost use Rattle.nego_node.specs.Machine.{half, asked_in};
ghost use Rattle.nego_node.specs.Sound.{Belongs};
ghost use Rattle.nego_node.specs.declared.events.Event.TheVariants.{Received, Posted};
ghost use Rattle.nego_plain.specs.Views.{board_node};
ghost use Rattle.nego_node.specs.Moves.{next_move, MayMove};
ghost use Rattle.nego_node.specs.declared.moves.Move.TheVariants.{Wait as Waiting};

use containers::Shared;
use nego_laws::field::{Field, Offer};
use nego_node::answers::Answer;
use nego_node::moves::Move;
use nego_node::node::NodeState;
use nego_node::tasks::{Side, Task};
use std::alloc::AllocError;

/// Hands a task to a node that may receive it.
pub(crate) fn hand<F: Field>(
    field: &F,
    node: &mut NodeState<F>,
    task: Shared<Task<F::Offer>>,
) -> Result<(), AllocError>
    requires tree { F.around node.old.site ≡ F.tree field.now }
    requires belongs { Belongs F.Offer.tree (F.tree field.now) task }
    requires lawful { MayReceive node.old.state task }
    ensures site { node.new.site ≡ node.old.site }
    ensures node { OnOk result
        (board_node node.new ≡ with_event (F.tree field.now) (Received task) (board_node node.old)) }
{
    node.reserve(1)?;
    match node.receive(field, task) {
        Ok(()) => Ok(()),
        Err(_) => unreachable!(),
    }
}

/// Gives a node the answer of a part that it may take.
pub(crate) fn give<F: Field>(
    field: &F,
    node: &mut NodeState<F>,
    side: Side,
    answer: Answer<F::Offer>,
) -> Result<(), AllocError>
    requires tree { F.around node.old.site ≡ F.tree field.now }
    requires belongs { Belongs F.Offer.tree (F.tree field.now) (task_of answer) }
    requires lawful { MayPost node.old.state side answer }
    requires generation { (task_of answer).generation ≡ (half node.old.state side).generation }
    ensures site { node.new.site ≡ node.old.site }
    ensures node { OnOk result
        (board_node node.new ≡ with_event (F.tree field.now) (Posted side answer) (board_node node.old)) }
{
    node.reserve(1)?;
    match node.post(field, side, answer) {
        Ok(()) => Ok(()),
        Err(_) => unreachable!(),
    }
}

/// Whether a part is asked a task.
pub(crate) fn is_asked<F: Field>(node: &NodeState<F>, side: Side) -> bool
    ensures { result ≡ is_some (half node.now.state side).slot }
{
    node.child_task(side).is_some()
}

/// The task that a part is asked.
pub(crate) fn asked<F: Field>(node: &NodeState<F>, side: Side) -> &Shared<Task<F::Offer>>
    requires { IsSome (half node.now.state side).slot }
    ensures task { asked_in (half node.now.state side).slot ≡ Some result.now }
    ensures belongs { Belongs F.Offer.tree (F.around node.now.site) result.now }
{
    match node.child_task(side) {
        None => unreachable!(),
        Some(task) => task,
    }
}

/// The next move of a node that is not eager.
pub(crate) fn next_step<F: Field>(field: &F, node: &NodeState<F>) -> Move
    requires tree { F.around node.now.site ≡ F.tree field.now }
    ensures next { next_move (F.tree field.now) false node.now.state ≡ result }
    ensures lawful { result ≢ Waiting → MayMove (F.tree field.now) node.now.state result }
{
    node.next_move(field, false)
}
