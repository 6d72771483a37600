//! A node with those below it, and what is done at one node.

ghost use Rattle.std.specs.Prelude.{◌≡◌, ◌≢◌, false, OnOk, IfOk, MatchBool};
ghost use Rattle.nego_laws.specs.Tree.{left_of, right_of};
ghost use Rattle.nego_node.specs.Lawful.{MaySplit, CanTry};
ghost use Rattle.nego_node.specs.Moves.{next_move, MayMove};
ghost use Rattle.nego_node.specs.declared.moves.Move.TheVariants as moves;
ghost use Rattle.nego_node.specs.Board.{opened as opened_node, with_event};
ghost use Rattle.nego_plain.specs.Family.{alone};
ghost use Rattle.nego_plain.specs.Views.{board_node, family_of, IsAround};
ghost use Rattle.nego_plain.specs.Engine.{DidMove, IsMoveLimited};
ghost use Rattle.nego_node.specs.declared.events.Event.TheVariants as events;

use crate::messages::{give, hand};
use crate::tries::Tries;
use nego_laws::field::{Field, Offer};
use nego_node::moves::Move;
use nego_node::node::NodeState;
use nego_node::tasks::Side;
use std::alloc::{AllocError, Global};

/// A node, and the families of its parts once it has split.
#[derive(Drop)]
#[cycle(family)]
pub struct Family<F: Field> {
    pub node: NodeState<F>,
    pub below: Below<F>,
}

/// What a node has opened.
#[derive(Drop)]
#[cycle(family)]
pub enum Below<F: Field> {
    Nothing,
    Parts(Box<Family<F>>, Box<Family<F>>),
}

/// A part of a node that has received nothing.
pub(crate) fn opened<F: Field>(alloc: Global, field: &F, site: F::Site, round: u32) -> Family<F>
    requires tree { F.around site ≡ F.tree field.now }
    ensures around { IsAround F.around (F.tree field.now) result }
    ensures state { family_of result ≡ alone (opened_node round (F.named site)) }
{
    let name = field.name(&site);
    Family {
        node: NodeState::begin(alloc, site, name, round),
        below: Below::Nothing,
    }
}

/// The parts of a node that splits, and their parent's new state.
pub(crate) fn split<F: Field>(
    alloc: Global,
    field: &F,
    node: &mut NodeState<F>,
) -> Result<(Box<Family<F>>, Box<Family<F>>), AllocError>
    requires tree { F.around node.old.site ≡ F.tree field.now }
    requires lawful { MaySplit (F.tree field.now) node.old.state }
    ensures site { node.new.site ≡ node.old.site }
    ensures node { OnOk result
        (board_node node.new ≡ with_event (F.tree field.now) events.Split (board_node node.old)) }
    ensures left { IfOk result
        (λ two. IsAround F.around (F.tree field.now) two.0.value
        × (family_of two.0.value ≡ alone (opened_node node.old.state.round (left_of node.old.state.name)))) }
    ensures right { IfOk result
        (λ two. IsAround F.around (F.tree field.now) two.1.value
        × (family_of two.1.value ≡ alone (opened_node node.old.state.round (right_of node.old.state.name)))) }
{
    let round = node.node_round();
    let (left, right) = node.split_into(field)?;
    let left = Box::new(alloc, opened(alloc, field, left, round))?;
    let right = Box::new(alloc, opened(alloc, field, right, round))?;
    Ok((left, right))
}

/// Tries the next item, unless the limit is reached.
pub(crate) fn try_item<F: Field>(
    field: &F,
    node: &mut NodeState<F>,
    tries: &mut Tries,
) -> Result<bool, AllocError>
    requires tree { F.around node.old.site ≡ F.tree field.now }
    requires next { next_move (F.tree field.now) false node.old.state ≡ moves.Try }
    requires lawful { CanTry (F.tree field.now) node.old.state }
    ensures site { node.new.site ≡ node.old.site }
    ensures did { IfOk result (λ moved. MatchBool moved
        (DidMove F.Offer.tree (F.tree field.now) (board_node node.old) (board_node node.new) tries.old tries.new)
        (IsMoveLimited (F.tree field.now) (board_node node.old) (board_node node.new) tries.old tries.new)) }
{
    if tries.is_spent() {
        return Ok(false);
    }
    node.tried(field)?;
    tries.count();
    Ok(true)
}

/// Makes a move other than Wait, Try and Split.
pub(crate) fn make<F: Field>(
    field: &F,
    node: &mut NodeState<F>,
    step: Move,
    tries: &mut Tries,
) -> Result<bool, AllocError>
    requires tree { F.around node.old.site ≡ F.tree field.now }
    requires next { next_move (F.tree field.now) false node.old.state ≡ step }
    requires lawful { MayMove (F.tree field.now) node.old.state step }
    requires no_try { step ≢ moves.Try }
    requires no_split { step ≢ moves.Split }
    requires no_wait { step ≢ moves.Wait }
    ensures site { node.new.site ≡ node.old.site }
    ensures did { IfOk result (λ moved. MatchBool moved
        (DidMove F.Offer.tree (F.tree field.now) (board_node node.old) (board_node node.new) tries.old tries.new)
        (IsMoveLimited (F.tree field.now) (board_node node.old) (board_node node.new) tries.old tries.new)) }
{
    node.advance(field, step)?;
    Ok(true)
}
