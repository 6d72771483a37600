//! The verdict of a round by the plain order.

ghost use Rattle.std.specs.Prelude.{◌≡◌, ◌++◌, None, true, false, IfOk, OnOk, OnErr, MatchBool, IsSome, map};
ghost use Rattle.nego_node.specs.Board.{opened as opened_node, first_task, with_event};
ghost use Rattle.nego_node.specs.declared.events.Event.TheVariants.{Received};
ghost use Rattle.nego_plain.specs.Family.{alone};
ghost use Rattle.nego_plain.specs.BoardOf.{nodes_of};
ghost use Rattle.nego_plain.specs.Views.{board_node, family_of, IsAround};
ghost use Rattle.nego_plain.specs.Engine.{NextIsTry, is_spent};
ghost use Rattle.nego_plain.specs.Settling.{IsUnderWay, IsSettled, Says, AreSorted};

use crate::family::{Below, Family, opened};
use crate::messages::hand;
use crate::stepping::work;
use crate::tries::Tries;
use containers::{Items, Shared};
use nego_laws::field::{Field, Offer};
use nego_node::answers::{Answer, Exhausted, Proposal};
use nego_node::node::{NodeState, Nodes};
use nego_node::tasks::{Offers, Task};
use std::alloc::{AllocError, Global};

/// What became of the root.
#[derive(Drop)]
pub enum Verdict<O: Offer> {
    /// An offer solves it.
    Closed(Proposal<O>),
    /// No offer does.
    Open(Exhausted<O>),
    /// The next attempt would pass the limit.
    Spent,
}

/// The verdict, and the nodes in the order of their names.
#[derive(Drop)]
pub struct Settled<F: Field> {
    pub verdict: Verdict<F::Offer>,
    pub nodes: Nodes<F>,
}

/// The root with its task.
fn root<F: Field>(alloc: Global, field: &F, round: u32) -> Result<Family<F>, AllocError>
    ensures around { IfOk result (λ family. IsAround F.around (F.tree field.now) family) }
    ensures state { IfOk result
        (λ family. family_of family
        ≡ alone (with_event (F.tree field.now) (Received (first_task (F.tree field.now) round))
        (opened_node round 1))) }
{
    let given = Shared::new(alloc, field.free()?)?;
    let ban = Offers::none(alloc)?;
    let task = Task {
        round,
        node: 1,
        generation: 1,
        given,
        ban,
    };
    let task = Shared::new(alloc, task)?;
    let site = field.root()?;
    let mut family = opened(alloc, field, site, round);
    hand(field, &mut family.node, task)?;
    Ok(family)
}

/// Follows the plain order until the root has an answer, or the next pick is an attempt and the limit is reached.
fn play<F: Field>(
    alloc: Global,
    field: &F,
    round: u32,
    tries: &mut Tries,
) -> Result<(Family<F>, bool), AllocError>
    ensures around { IfOk result (λ two. IsAround F.around (F.tree field.now) two.0) }
    ensures played { IfOk result
        (λ two. IsUnderWay F.Offer.tree (F.tree field.now) round tries.old tries.new (family_of two.0)) }
    ensures ends { IfOk result
        (λ two. MatchBool two.1 (NextIsTry (F.tree field.now) (family_of two.0) × (two.0.node.state.answer ≡ None)
        × (is_spent tries.new ≡ true)) (IsSome two.0.node.state.answer)) }
{
    // For the proof alone: that the field is read says that the count is one of 64 bits.
    let _made = tries.made;
    let mut family = root(alloc, field, round)?;
    let answered = work(alloc, field, &mut family, tries)?;
    Ok((family, !answered))
}

/// The nodes of a family, at the end of a list.
fn gather<F: Field>(family: Family<F>, nodes: &mut Vec<NodeState<F>>) -> Result<(), AllocError>
    ensures { OnOk result (map (λ n. board_node n) nodes.new.items ≡ map (λ n. board_node n) nodes.old.items
        ++ nodes_of (family_of family)) }
{
    let Family { node, below } = family;
    nodes.push(node)?;
    match below {
        Below::Nothing => Ok(()),
        Below::Parts(left, right) => {
            gather(Box::into_inner(left), nodes)?;
            gather(Box::into_inner(right), nodes)
        }
    }
}

/// The nodes of a family in the order of their names.
fn in_order<F: Field>(alloc: Global, family: Family<F>) -> Result<Nodes<F>, AllocError>
    ensures { IfOk result (λ nodes. AreSorted (nodes_of (family_of family)) nodes) }
{
    let mut nodes = Vec::new(alloc);
    gather(family, &mut nodes)?;
    nodes.sort_unstable_by_key(|node: &NodeState<F>| node.node_name());
    Ok(Items::from_vec(nodes))
}

/// The verdict on a root that has an answer, or where the limit is reached.
fn verdict_of<F: Field>(node: &NodeState<F>, limited: bool) -> Result<Verdict<F::Offer>, AllocError>
    requires { limited ≡ false → IsSome node.now.state.answer }
    ensures { IfOk result (λ verdict. Says limited node.now.state.answer verdict) }
{
    if limited {
        return Ok(Verdict::Spent);
    }
    let answer = match node.answer() {
        None => unreachable!(),
        Some(answer) => answer,
    };
    match answer {
        Answer::Proposal(proposal) => Ok(Verdict::Closed(proposal.copy()?)),
        Answer::Exhausted(exhausted) => Ok(Verdict::Open(exhausted.copy()?)),
    }
}

/// Settles a round: follows the plain order from the root alone to the root's answer, or to an attempt that would pass
/// the limit. The verdict is `Closed` with an offer that solves the root, `Open` only where no offer does, and `Spent`
/// exactly where the next pick is an attempt and the limit is reached. The nodes are those of the board that was
/// reached. The only error is want of memory, which leaves `tries` as it was. A call goes as deep into the stack as the
/// tree is high, 127 sites below the root at the most, since a site's name fits 128 bits.
pub fn settle<F: Field>(
    alloc: Global,
    field: &F,
    round: u32,
    tries: &mut Tries,
) -> Result<Settled<F>, AllocError>
    ensures settled { IfOk result (λ settled. IsSettled F.Offer.tree
        (F.tree field.now) round tries.old tries.new settled.verdict settled.nodes) }
    ensures unchanged { OnErr result (tries.new ≡ tries.old) }
{
    let mut counted = *tries;
    let (family, limited) = play(alloc, field, round, &mut counted)?;
    let verdict = verdict_of(&family.node, limited)?;
    let nodes = in_order(alloc, family)?;
    *tries = counted;
    Ok(Settled { verdict, nodes })
}
