//! The picks of the plain order, one after the other.

ghost use Rattle.std.specs.Prelude.{◌≡◌, ◌<◌, OnOk, IfOk, IsSome};
ghost use Rattle.nego_plain.specs.Views.{board_node, family_of, IsAround};
ghost use Rattle.nego_plain.specs.Engine.{IsInPlain, IsSeeking, AwaitsPart, DidPlay, DidPartPlay, DidWork};

use crate::family::{Below, Family, make, split, try_item};
use crate::messages::{asked, give, hand, is_asked, next_step};
use crate::tries::Tries;
use nego_laws::field::{Field, Offer};
use nego_node::moves::Move;
use nego_node::node::NodeState;
use nego_node::tasks::Side;
use std::alloc::{AllocError, Global};

/// Follows the plain order in a family until its top has an answer, and answers true; or false where the next pick is
/// an attempt and the limit is reached.
#[cycle(step)]
pub(crate) fn work<F: Field>(
    alloc: Global,
    field: &F,
    family: &mut Family<F>,
    tries: &mut Tries,
) -> Result<bool, AllocError>
    requires around { IsAround F.around (F.tree field.now) family.old }
    requires plain { IsInPlain F.Offer.tree (F.tree field.now) (family_of family.old) }
    requires holds { IsSome family.old.node.state.held }
    ensures around { OnOk result (IsAround F.around (F.tree field.now) family.new) }
    ensures did { IfOk result (λ answered. DidWork F.Offer.tree (F.tree field.now) family.old.node.state.round answered
        (family_of family.old) (family_of family.new) tries.old tries.new) }
{
    'picks: while family.node.answer().is_none() {
        let moved = step(alloc, field, family, tries)?;
        if !moved {
            return Ok(false);
        }
    }
    Ok(true)
}

/// Does the next pick of the plain order at the part for which a node waits, or those below it up to its answer, unless
/// the next one is an attempt and the limit is reached.
#[cycle(step)]
fn step_part<F: Field>(
    alloc: Global,
    field: &F,
    node: &mut NodeState<F>,
    side: Side,
    part: &mut Family<F>,
    tries: &mut Tries,
) -> Result<bool, AllocError>
    requires tree { F.around node.old.site ≡ F.tree field.now }
    requires around { IsAround F.around (F.tree field.now) part.old }
    requires awaits { AwaitsPart F.Offer.tree (F.tree field.now) node.old.state side (family_of part.old) }
    requires lower { (F.tree field.now).height part.old.node.state.name
        < (F.tree field.now).height node.old.state.name }
    ensures site { OnOk result (node.new.site ≡ node.old.site) }
    ensures around { OnOk result (IsAround F.around (F.tree field.now) part.new) }
    ensures did { IfOk result (λ moved. DidPartPlay F.Offer.tree (F.tree field.now) node.old.state.round side moved
        (board_node node.old) (board_node node.new) (family_of part.old) (family_of part.new) tries.old tries.new) }
{
    let task = asked(node, side);
    if part.node.held_generation() != task.get().generation {
        let task = task.copy()?;
        hand(field, &mut part.node, task)?;
        return Ok(true);
    }
    let answer = match part.node.answer() {
        None => {
            let answered = work(alloc, field, part, tries)?;
            return Ok(answered);
        }
        Some(answer) => answer.copy()?,
    };
    give(field, node, side, answer)?;
    Ok(true)
}

/// Does the next pick of the plain order at the top of a family, or where it waits for a part what `step_part` does,
/// unless the next one is an attempt and the limit is reached.
#[cycle(step)]
pub(crate) fn step<F: Field>(
    alloc: Global,
    field: &F,
    family: &mut Family<F>,
    tries: &mut Tries,
) -> Result<bool, AllocError>
    requires around { IsAround F.around (F.tree field.now) family.old }
    requires plain { IsInPlain F.Offer.tree (F.tree field.now) (family_of family.old) }
    requires seeks { IsSeeking family.old.node.state }
    ensures around { OnOk result (IsAround F.around (F.tree field.now) family.new) }
    ensures did { IfOk result (λ moved. DidPlay F.Offer.tree (F.tree field.now) family.old.node.state.round moved
        (family_of family.old) (family_of family.new) tries.old tries.new) }
{
    match next_step(field, &family.node) {
        Move::Wait => {
            let in_trial = is_asked(&family.node, Side::Right);
            match &mut family.below {
                Below::Nothing => unreachable!(),
                Below::Parts(left, right) => {
                    if in_trial {
                        let moved = step_part(
                            alloc,
                            field,
                            &mut family.node,
                            Side::Right,
                            right,
                            tries,
                        )?;
                        Ok(moved)
                    } else {
                        let moved = step_part(
                            alloc,
                            field,
                            &mut family.node,
                            Side::Left,
                            left,
                            tries,
                        )?;
                        Ok(moved)
                    }
                }
            }
        }
        Move::Try => {
            let moved = try_item(field, &mut family.node, tries)?;
            Ok(moved)
        }
        Move::Split => {
            let (left, right) = split(alloc, field, &mut family.node)?;
            family.below = Below::Parts(left, right);
            Ok(true)
        }
        other => {
            let moved = make(field, &mut family.node, other, tries)?;
            Ok(moved)
        }
    }
}
