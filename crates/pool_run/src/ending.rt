//! How the end of a pool is found once its threads are joined.

ghost use Rattle.std.specs.Prelude.{◌≡◌, ◌≤◌, ◌↔◌, true, Some, IfOk, IfSome, IsTrue, All, slice_get};
ghost use Rattle.nego_node.specs.Board.{first_task};
ghost use Rattle.nego_node.specs.Moves.{next_move};
ghost use Rattle.nego_node.specs.NodeValue.{IsNode};
ghost use Rattle.nego_node.specs.Sound.{Belongs};
ghost use Rattle.nego_node.specs.declared.moves.Move.TheVariants as moves;
ghost use Rattle.pool_run.specs.Ends.{AreOfRound, HasTry, IsAnswerEnd, IsTrueEnd, end_of, tries_with};

use crate::outcome::{PoolEnd, PoolRun};
use crate::working::ROOT;
use nego_laws::field::{Field, Offer};
use nego_lock::directory::Directory;
use nego_lock::locked::Key;
use nego_node::answers::Answer;
use nego_node::moves::Move;
use nego_node::node::{NodeState, Nodes};
use nego_node::tasks::Task;
use nego_plain::settling::{Settled, Verdict, settle};
use nego_plain::tries::Tries;
use std::alloc::{AllocError, Global};

/// Whether a task is the first one of the round's root.
fn is_first<F: Field>(field: &F, round: u32, task: &Task<F::Offer>) -> Result<bool, AllocError>
    requires { Belongs F.Offer.tree (F.tree field.now) task.now }
    ensures { IfOk result (λ same. IsTrue same ↔ (task.now ≡ first_task (F.tree field.now) round)) }
{
    if task.round != round || task.node != ROOT || task.generation != 1 {
        return Ok(false);
    }
    let free = field.free()?;
    Ok(task.ban.as_slice().is_empty() && field.same(task.given.get(), &free))
}

/// What the root's answer says, if it has one to the first task of the round.
fn answered<F: Field>(
    field: &F,
    round: u32,
    root: &NodeState<F>,
) -> Result<Option<PoolEnd<F::Offer>>, AllocError>
    requires { F.around root.now.site ≡ F.tree field.now }
    ensures { IfOk result (λ found. IfSome found
        (IsAnswerEnd F.Offer.tree (F.tree field.now) round root.now.state.answer)) }
{
    let Some(answer) = root.answer() else {
        return Ok(None);
    };
    if !is_first(field, round, answer.task().get())? {
        return Ok(None);
    }
    match answer {
        Answer::Proposal(proposal) => {
            let same = proposal.copy()?;
            Ok(Some(PoolEnd::Closed(same)))
        }
        Answer::Exhausted(exhausted) => {
            let same = exhausted.copy()?;
            Ok(Some(PoolEnd::Open(same)))
        }
    }
}

/// Whether a node is to try an item.
fn is_to_try<F: Field>(field: &F, node: &NodeState<F>) -> bool
    requires { F.around node.now.site ≡ F.tree field.now }
    ensures { IsTrue result ↔ (next_move (F.tree field.now) true node.now.state ≡ moves.Try) }
{
    matches!(node.next_move(field, true), Move::Try)
}

/// Whether some node is to try an item.
fn some_try<F: Field>(field: &F, nodes: &[NodeState<F>]) -> bool
    requires { All (λ n. F.around n.site ≡ F.tree field.now) nodes.now }
    ensures { IsTrue result ↔ HasTry (F.tree field.now) nodes.now }
{
    for node in nodes {
        if is_to_try(field, node) {
            return true;
        }
    }
    false
}

/// Reads all histories, for the proof alone: each says that it is a run of lawful events.
fn histories<F: Field>(nodes: &[NodeState<F>])
    ensures { All (λ n. IsNode F.Offer.tree (F.around n.site) (F.named n.site) n.state n.history) nodes.now }
{
    for node in nodes {
        let _history = node.history();
    }
}

/// The root, and behind it the nodes of the directory that are of its round, in the rising order of their names.
fn gathered<F: Field, K: Key<F>>(
    _field: &F,
    root: NodeState<F>,
    directory: Directory<F, K>,
) -> Result<Nodes<F>, AllocError>
    requires key { K.tree ≡ Some (F.tree _field.now) }
    requires root { K.tree ≡ Some (F.around root.site) }
    ensures first { IfOk result (λ nodes. slice_get nodes 0 ≡ Some root) }
    ensures tree { IfOk result (λ nodes. All (λ n. F.around n.site ≡ F.tree _field.now) nodes) }
    ensures nodes { IfOk result (λ nodes. AreOfRound F.Offer.tree (F.tree _field.now) root.state.round nodes) }
{
    let nodes = directory.into_states(root)?;
    histories(nodes.as_slice());
    Ok(nodes)
}

/// How the plain engine's verdict ends the pool.
fn end_of<O: Offer>(verdict: Verdict<O>) -> PoolEnd<O>
    ensures { result ≡ end_of verdict }
{
    match verdict {
        Verdict::Closed(proposal) => PoolEnd::Closed(proposal),
        Verdict::Open(exhausted) => PoolEnd::Open(exhausted),
        Verdict::Spent => PoolEnd::Spent,
    }
}

/// Settles the round by the calling thread alone, after so many tries.
fn settle_alone<F: Field>(
    alloc: Global,
    field: &F,
    round: u32,
    limit: u64,
    before: u64,
) -> Result<PoolRun<F>, AllocError>
    requires { before ≤ limit }
    ensures tries { IfOk result (λ run. run.tries ≤ limit) }
    ensures made { IfOk result (λ run. run.tries ≡ tries_with before run.nodes) }
    ensures nodes { IfOk result (λ run. AreOfRound F.Offer.tree (F.tree field.now) round run.nodes) }
    ensures end { IfOk result (λ run.
        IsTrueEnd F.Offer.tree (F.tree field.now) round limit run.tries run.nodes run.end) }
{
    let mut tries = Tries {
        limit: Some(limit - before),
        made: 0,
    };
    let Settled { verdict, nodes } = settle(alloc, field, round, &mut tries)?;
    Ok(PoolRun {
        end: end_of(verdict),
        nodes,
        tries: before + tries.made,
    })
}

/// The answer of a pool whose threads are joined. Where its nodes show no end, they are dropped, and the calling thread
/// settles the round with the tries that are left.
pub(crate) fn finish<F: Field, K: Key<F>>(
    alloc: Global,
    field: &F,
    round: u32,
    limit: u64,
    tries: u64,
    root: NodeState<F>,
    directory: Directory<F, K>,
) -> Result<PoolRun<F>, AllocError>
    requires key { K.tree ≡ Some (F.tree field.now) }
    requires root { K.tree ≡ Some (F.around root.site) }
    requires tries { tries ≤ limit }
    ensures tries { IfOk result (λ run. run.tries ≤ limit) }
    ensures nodes { IfOk result (λ run. AreOfRound F.Offer.tree (F.tree field.now) round run.nodes) }
    ensures end { IfOk result (λ run.
        IsTrueEnd F.Offer.tree (F.tree field.now) round limit run.tries run.nodes run.end) }
{
    if root.node_name() != ROOT || root.node_round() != round {
        return settle_alone(alloc, field, round, limit, tries);
    }
    let answer = answered(field, round, &root)?;
    let nodes = gathered(field, root, directory)?;
    if let Some(end) = answer {
        return Ok(PoolRun { end, nodes, tries });
    }
    if tries == limit && some_try(field, nodes.as_slice()) {
        let end = PoolEnd::Spent;
        return Ok(PoolRun { end, nodes, tries });
    }
    drop(nodes);
    settle_alone(alloc, field, round, limit, tries)
}
