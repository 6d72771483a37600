//! Why a node refuses a message.

use crate::tasks::Task;
use containers::Shared;

/// Why a message was refused.
#[derive(Drop)]
pub enum Misfit<O> {
    /// A task that is no newer than the held one, or an answer to another generation than the side's: the node's
    /// number, and the message's.
    Stale {
        held: u64,
        brought: u64,
    },
    /// A task of another round or node, or an answer to what was not asked: the round and the name of the node that
    /// refuses, and the task that came or that was answered.
    Stranger {
        round: u32,
        node: u128,
        brought: Shared<Task<O>>,
    },
    /// A further answer to what has one.
    Twice {
        generation: u64,
    },
}
