//! Where a worker's entries are: its own deque, and passes to the deques of the others.

ghost use Rattle.std.specs.Prelude.{◌≡◌, ◌<◌, ◌≤◌};
ghost use Rattle.crossbeam_deque.specs.Handles.{IsPassOf, stealer_deque};

use crate::entry::{Entry, Hand};
use crate::rule::{OnceTaken, Put, Took};
use crossbeam_deque::{Pass, Steal, Stealer, Worker};
use nego_laws::field::Field;
use nego_lock::locked::Key;
use std::alloc::{AllocError, Global};

/// The deque of a worker.
pub(crate) type Own<F, K> = Worker<Entry<F, K>, Global, Hand<F, K>, OnceTaken>;

/// A way to the deque of another worker.
pub(crate) type Other<F, K> = Stealer<Entry<F, K>, Global, Hand<F, K>, OnceTaken>;

/// The deque of another worker, with a pass to it.
#[derive(Drop)]
pub(crate) struct Thief<F: Field, K: Key<F>> {
    stealer: Other<F, K>,
    pass: Pass<Entry<F, K>, Hand<F, K>, Global>,
    ghost same: { IsPassOf (stealer_deque stealer) pass },
}

impl<F: Field, K: Key<F>> Thief<F, K> {
    /// A new pass to a worker's deque.
    pub(crate) fn of(owner: &Own<F, K>) -> Result<Thief<F, K>, AllocError> {
        let stealer = owner.stealer()?;
        let pass = stealer.pass();
        Ok(Thief { stealer, pass })
    }

    /// Takes an entry of the other worker.
    fn steal(&mut self) -> Option<Entry<F, K>> {
        let Thief { stealer, pass } = self;
        stealer.steal_as::<Took>(pass).success()
    }
}

/// The deque of one worker, its passes to those of the others, and a task that it queues only once it leaves the node
/// that gave it.
#[derive(Drop)]
pub(crate) struct Desk<F: Field, K: Key<F>> {
    own: Own<F, K>,
    others: Vec<Thief<F, K>>,
    put_off: Option<Entry<F, K>>,
}

/// Whether it is the other part's turn, where one part's task and the other's ban so many offers. A part's task bans
/// those of its own that failed: after 2, 4, 8, .. of them the other part has a turn.
fn is_due(first: usize, other: usize) -> bool {
    first >> other.min(63) > 1
}

impl<F: Field, K: Key<F>> Desk<F, K> {
    /// A desk of this deque and these passes.
    pub(crate) fn new(own: Own<F, K>, others: Vec<Thief<F, K>>) -> Desk<F, K> {
        Desk {
            own,
            others,
            put_off: None,
        }
    }

    /// Puts an entry into its own deque. The error is want of memory, and drops the entry.
    pub(crate) fn put(&mut self, entry: Entry<F, K>) -> Result<(), AllocError> {
        match self.own.push_as::<Put>(entry) {
            Ok(()) => Ok(()),
            Err(_) => Err(AllocError),
        }
    }

    /// Queues a task for a part, or puts it off for the other part's. Of two tasks the first is queued last, and so is
    /// taken first, unless it is the other's turn. The error is want of memory, and drops what it was to queue.
    pub(crate) fn put_task(&mut self, task: Entry<F, K>) -> Result<(), AllocError> {
        let Some(first) = self.put_off.take() else {
            self.put_off = Some(task);
            return Ok(());
        };
        if is_due(first.banned(), task.banned()) {
            self.put(first)?;
            self.put(task)
        } else {
            self.put(task)?;
            self.put(first)
        }
    }

    /// Queues the task that was put off. The error is want of memory, and drops the task.
    pub(crate) fn put_rest(&mut self) -> Result<(), AllocError> {
        match self.put_off.take() {
            Some(task) => self.put(task),
            None => Ok(()),
        }
    }

    /// An entry of its own, or else one of another worker.
    pub(crate) fn next_entry(&mut self) -> Option<Entry<F, K>> {
        if let Some(entry) = self.own.pop_as::<Took>() {
            return Some(entry);
        }
        for other in self.others.iter_mut() {
            if let Some(entry) = other.steal() {
                return Some(entry);
            }
        }
        None
    }
}
