//! Picks of a node and an act.

ghost use Rattle.std.specs.Prelude.{◌≡◌, slice_get};
ghost use Rattle.nego_core.specs.Acts.{acts};

use containers::Items;
use nego_node::acts::Act;
use nego_node::moves::Move;
use nego_node::tasks::Side;

/// A node by its number, modulo the number of nodes, and an act by its number.
#[derive(Clone, Copy)]
pub struct Pick {
    pub node: u64,
    pub act: u8,
}

/// Picks in their order.
pub type Picks = Items<Pick>;

/// The act of a number, from 0 to 12.
pub(crate) fn act_numbered(number: u8) -> Option<Act>
    ensures { result ≡ slice_get acts number }
{
    match number {
        0 => Some(Act::Receive),
        1 => Some(Act::Make(Move::Try)),
        2 => Some(Act::Make(Move::Split)),
        3 => Some(Act::Make(Move::Ask(Side::Left))),
        4 => Some(Act::Make(Move::Ask(Side::Right))),
        5 => Some(Act::Post(Side::Left)),
        6 => Some(Act::Post(Side::Right)),
        7 => Some(Act::Make(Move::Adopt(Side::Left))),
        8 => Some(Act::Make(Move::Adopt(Side::Right))),
        9 => Some(Act::Make(Move::Agree)),
        10 => Some(Act::Make(Move::Forbid)),
        11 => Some(Act::Make(Move::Refuse)),
        12 => Some(Act::Make(Move::Exhaust)),
        _ => None,
    }
}
