//! Rounds over sets of numbers that several workers settle.

ghost use Rattle.std.specs.Prelude.{◌≡◌, ◌<◌, Some};

use crate::gate::Gate;
use crate::outcome::PoolEnd;
use crate::pool::negotiate;
use containers::{Items, Shared};
use nego_laws::sets::{SetField, SetOffer, SetSite, SetTree};
use nego_lock::locked::Key;
use std::alloc::{AllocError, Global};
use std::marker::{Brand, PhantomData};
use std::process::Abort;
use std::sync::Wait;
use std::sync::atomic::AtomicU64;
use std::sync::atomic::Ordering::SeqCst;
use std::test::Fail;
use std::thread;
use std::thread::Threads;

/// The tree of sets that a test is about, which the test picks.
trait SetKey {
    ghost use Rattle.std.specs.Prelude.{Option};
    ghost use Rattle.nego_laws.specs.declared.sets.SetTree.{SetTree};

    ghost sets: { Option SetTree };
}

impl SetKey for Brand {
    ghost use Rattle.std.specs.Prelude.{None};

    ghost sets = { None };
}

/// The key of those sets.
struct SetsOf<K: SetKey> {
    of: PhantomData<K>,
}

impl<K: SetKey> Key<SetField> for SetsOf<K> {
    ghost use Rattle.std.specs.Prelude.{option_map};
    ghost use Rattle.nego_laws.specs.Sets.{set_tree};

    ghost tree = { option_map set_tree K.sets };
}

/// How a pool ended.
#[derive(Clone, Copy, PartialEq, Eq, Debug)]
enum Ended {
    Closed,
    Open,
    Spent,
}

fn end_seen(end: &PoolEnd<SetOffer>) -> Ended {
    match end {
        PoolEnd::Closed(_) => Ended::Closed,
        PoolEnd::Open(_) => Ended::Open,
        PoolEnd::Spent => Ended::Spent,
    }
}

/// A gate that holds nobody up.
struct Ajar;

impl Gate for Ajar {
    fn before(&self, _node: u128) {}
}

/// A gate that holds the first visit of node 2 until one of node 3 has begun, and the other way round. It counts how
/// often the wait ended so, and how often it was given up.
#[derive(Drop)]
struct Meeting {
    two: AtomicU64,
    three: AtomicU64,
    met: AtomicU64,
    late: AtomicU64,
}

/// How often a held visit looks for the other one.
const LOOKS: u64 = 100_000_000;

impl Meeting {
    fn new() -> Meeting {
        Meeting {
            two: AtomicU64::new(0),
            three: AtomicU64::new(0),
            met: AtomicU64::new(0),
            late: AtomicU64::new(0),
        }
    }

    fn hold(&self, mine: &AtomicU64, other: &AtomicU64) {
        if mine.swap(1, SeqCst) == 1 {
            return;
        }
        for _look in 0..LOOKS {
            if other.load(SeqCst) == 1 {
                self.met.fetch_add(1, SeqCst);
                return;
            }
            thread::yield_now();
        }
        self.late.fetch_add(1, SeqCst);
    }
}

impl Gate for Meeting {
    fn before(&self, node: u128) {
        if node == 2 {
            self.hold(&self.two, &self.three);
        }
        if node == 3 {
            self.hold(&self.three, &self.two);
        }
    }
}

/// A root without items over two parts, of which each item needs the number 1.
fn fork(alloc: Global, right_items: usize) -> Result<SetField, AllocError> {
    let mut sites = Items::new(alloc);
    sites.push(SetSite {
        parted: true,
        needs: Items::new(alloc),
    })?;
    sites.push(SetSite {
        parted: false,
        needs: Items::from_slice(alloc, &[2, 2])?,
    })?;
    sites.push(SetSite {
        parted: false,
        needs: if right_items == 0 {
            Items::new(alloc)
        } else {
            Items::from_slice(alloc, &[2])?
        },
    })?;
    let tree = Shared::new(alloc, SetTree { sites })?;
    Ok(SetField { tree })
}

/// How a pool ended, how many items were tried, and how many nodes there were.
fn settled<K: SetKey + Send + Sync, G: Gate, R: Threads + Wait + Sync>(
    rt: &R,
    alloc: Global,
    field: &SetField,
    workers: u32,
    limit: u64,
    gate: &G,
) -> Result<(Ended, u64, usize), AllocError>
    requires some { 0 < workers }
    requires key { K.sets ≡ Some field.now.tree }
{
    let run = negotiate::<SetField, SetsOf<K>, G, R>(rt, alloc, field, 1, workers, limit, gate)?;
    Ok((end_seen(run.end()), run.tries(), run.nodes().len()))
}

#[test]
fn two_workers_meet(rt: HostRuntime) -> Result<(), Fail> {
    let field = fork(rt.alloc(), 1)?;
    let gate = Meeting::new();
    let seen = settled::<Brand, Meeting, HostRuntime>(&rt, rt.alloc(), &field, 2, 100, &gate)?;
    assert_eq!(rt; seen.0, Ended::Closed);
    assert_eq!(rt; seen.2, 3);
    assert_eq!(rt; gate.met.load(SeqCst), 2);
    assert_eq!(rt; gate.late.load(SeqCst), 0);
    Ok(())
}

#[test]
fn a_part_without_items_is_open(rt: HostRuntime) -> Result<(), Fail> {
    let field = fork(rt.alloc(), 0)?;
    let seen = settled::<Brand, Ajar, HostRuntime>(&rt, rt.alloc(), &field, 4, 100, &Ajar)?;
    assert_eq!(rt; seen.0, Ended::Open);
    Ok(())
}

#[test]
fn a_limit_of_one_is_spent(rt: HostRuntime) -> Result<(), Fail> {
    let field = fork(rt.alloc(), 1)?;
    let seen = settled::<Brand, Ajar, HostRuntime>(&rt, rt.alloc(), &field, 2, 1, &Ajar)?;
    assert_eq!(rt; seen, (Ended::Spent, 1, 3));
    Ok(())
}
