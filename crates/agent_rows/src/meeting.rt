//! A gate at which two workers meet.

use pool_run::gate::Gate;
use std::sync::atomic::AtomicU64;
use std::sync::atomic::Ordering::SeqCst;
use std::thread;

/// How often a visit that is held looks for the other one.
const LOOKS: u64 = 100_000_000;

/// A gate that holds the first visit of node 2 until one of node 3 has begun, and the other way round. It counts the
/// visits of the nodes 1, 2 and 3, how many of the two holds ended so, and how many were given up.
#[derive(Drop)]
pub(crate) struct Meeting {
    root: AtomicU64,
    left: AtomicU64,
    right: AtomicU64,
    pub(crate) met: AtomicU64,
    pub(crate) late: AtomicU64,
}

impl Meeting {
    pub(crate) fn new() -> Meeting {
        Meeting {
            root: AtomicU64::new(0),
            left: AtomicU64::new(0),
            right: AtomicU64::new(0),
            met: AtomicU64::new(0),
            late: AtomicU64::new(0),
        }
    }

    /// The visits of a node, if they are counted.
    pub(crate) fn visits(&self, node: u128) -> Option<&AtomicU64> {
        match node {
            1 => Some(&self.root),
            2 => Some(&self.left),
            3 => Some(&self.right),
            _ => None,
        }
    }

    /// Holds the visit until the other node has one.
    fn hold(&self, other: &AtomicU64) {
        for _look in 0..LOOKS {
            if other.load(SeqCst) > 0 {
                self.met.fetch_add(1, SeqCst);
                return;
            }
            thread::yield_now();
        }
        self.late.fetch_add(1, SeqCst);
    }
}

impl Gate for Meeting {
    fn before(&self, node: u128) {
        let Some(visits) = self.visits(node) else {
            return;
        };
        if visits.fetch_add(1, SeqCst) > 0 {
            return;
        }
        match node {
            2 => self.hold(&self.right),
            3 => self.hold(&self.left),
            _ => {}
        }
    }
}
