//! The pairs of bound metavariables that unification has met, so that it goes through none of them twice.

ghost use Rattle.std.specs.Prelude.{◌≡◌, [], IfOk};
ghost use Rattle.std.specs.HashSet.{IsEmpty};
ghost use Rattle.unify.specs.Memo.{KeepsMemory};

use free_terms::Name;
use std::alloc::{AllocError, Global};
use std::collections::HashSet;

/// Two metavariables that are one once no more pairs are left than `below`.
#[derive(Drop)]
pub(crate) struct Met {
    pub(crate) left: Name,
    pub(crate) right: Name,
    pub(crate) below: usize,
}

/// The pairs that were met: those that wait for what they came to, the last one at the end, and those that
/// are one.
#[derive(Drop)]
pub(crate) struct Memo {
    pub(crate) waiting: Vec<Met>,
    pub(crate) done: HashSet<(Name, Name)>,
}

impl Memo {
    pub(crate) fn new(alloc: Global) -> Memo
        ensures waiting { result.waiting.items ≡ [] }
        ensures done { IsEmpty result.done }
    {
        Memo {
            waiting: Vec::new(alloc),
            done: HashSet::new(alloc),
        }
    }
}

/// Moves the pairs that wait for nothing more to those that are one, where one pair more is left than `left`.
pub(crate) fn settle(memo: &mut Memo, left: usize) -> Result<(), AllocError>
    ensures { IfOk result (λ _. KeepsMemory left memo.old memo.new) }
{
    while let Some(met) = memo.waiting.pop() {
        if met.below <= left {
            memo.waiting.push(met)?;
            return Ok(());
        }
        memo.done.insert((met.left, met.right))?;
    }
    Ok(())
}
