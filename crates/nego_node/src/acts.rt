//! The acts of a board: a message that a node takes, or a move of its own.

use crate::moves::Move;
use crate::tasks::Side;

/// What is done at a node of a board: it takes the task that it is asked at present, or the present answer of a part,
/// or it makes a move of its own.
#[derive(Clone, Copy, PartialEq, Eq)]
pub enum Act {
    Receive,
    Post(Side),
    Make(Move),
}
