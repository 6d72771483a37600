//! Workers that settle a round together.

ghost use Rattle.std.specs.Prelude.{◌≡◌, ◌<◌, ◌≤◌, Some, IfOk};
ghost use Rattle.nego_node.specs.Board.{first_task as first};
ghost use Rattle.pool_run.specs.Ends.{AreOfRound, IsTrueEnd};

use crate::crew::{desks, give_back, take_shares};
use crate::desk::Desk;
use crate::ending::finish;
use crate::entry::Entry;
use crate::gate::Gate;
use crate::outcome::PoolRun;
use crate::working::{ROOT, Table, run_workers};
use containers::Shared;
use nego_laws::field::{Field, Offer};
use nego_lock::directory::Directory;
use nego_lock::locked::{Key, LockedNode, StopFlag};
use nego_lock::visit::Message;
use nego_node::node::NodeState;
use nego_node::tasks::{Offers, Task};
use std::alloc::{AllocError, Global};
use std::marker::Brand;
use std::sync::atomic::AtomicU64;
use std::sync::ledger::{Blank, Ledger};
use std::sync::{Mutex, Wait};
use std::thread::Threads;
use step_book::Book;

/// The root of the round, which has received nothing.
fn root_node<F: Field>(alloc: Global, field: &F, round: u32) -> Result<NodeState<F>, AllocError>
    ensures { IfOk result (λ state. F.around state.site ≡ F.tree field.now) }
{
    let site = field.root()?;
    Ok(NodeState::begin(alloc, site, ROOT, round))
}

/// The first task of the round's root.
fn first_task<F: Field>(
    alloc: Global,
    field: &F,
    round: u32,
) -> Result<Shared<Task<F::Offer>>, AllocError>
    ensures { IfOk result (λ task. task ≡ first (F.tree field.now) round) }
{
    let given = Shared::new(alloc, field.free()?)?;
    let ban = Offers::none(alloc)?;
    let task = Task {
        round,
        node: ROOT,
        generation: 1,
        given,
        ban,
    };
    Shared::new(alloc, task)
}

/// Queues the root's task at the first desk.
fn begin_work<F: Field, K: Key<F>, R: Wait>(
    rt: &R,
    alloc: Global,
    field: &F,
    round: u32,
    desks: &[Mutex<Desk<F, K>>],
) -> Result<(), AllocError>
    requires { K.tree ≡ Some (F.tree field.now) }
{
    let task = first_task(alloc, field, round)?;
    if let Some(first) = desks.first() {
        let entry = Entry::bringing(field, ROOT, Message::Task(task));
        first.lock(rt).put(entry)?;
    }
    Ok(())
}

/// The pool over ledgers that have names.
fn negotiate_in<
    N: Ledger + Send + Sync,
    M: Ledger + Send + Sync,
    F: Field + Sync,
    K: Key<F> + Send + Sync,
    G: Gate,
    R: Threads + Wait + Sync,
>(
    rt: &R,
    alloc: Global,
    field: &F,
    round: u32,
    workers: u32,
    limit: u64,
    gate: &G,
    number: Blank,
    cap: Blank,
) -> Result<PoolRun<F>, AllocError>
    requires workers { 0 < workers }
    requires key { K.tree ≡ Some (F.tree field.now) }
    requires number { (number.name ≡ N.name) × (number.parts ≡ N.parts) × (number.parts ≡ workers) }
    requires cap { (cap.name ≡ M.name) × (cap.parts ≡ M.parts) × (cap.parts ≡ 1) }
    ensures tries { IfOk result (λ run. run.tries ≤ limit) }
    ensures nodes { IfOk result (λ run. AreOfRound F.Offer.tree (F.tree field.now) round run.nodes) }
    ensures end { IfOk result (λ run.
        IsTrueEnd F.Offer.tree (F.tree field.now) round limit run.tries run.nodes run.end) }
{
    let (book, mut shares) = Book::<N, M>::new(alloc, number, cap, limit, workers)?;
    let root = LockedNode::<F, K>::new(root_node(alloc, field, round)?);
    let directory = Directory::new(alloc);
    let stop = StopFlag::new();
    let pause = AtomicU64::new(0);
    let desks = desks::<F, K>(alloc, workers)?;
    let mut taken = take_shares(alloc, &mut shares)?;
    begin_work(rt, alloc, field, round, desks.as_slice())?;
    let table = Table {
        rt,
        alloc,
        round,
        field,
        gate,
        root: &root,
        directory: &directory,
        stop: &stop,
        pause: &pause,
        book: &book,
        desks: desks.as_slice(),
    };
    run_workers(&table, taken.as_mut_slice(), workers);
    give_back(taken, &mut shares);
    let tries = book.total(shares);
    finish(
        alloc,
        field,
        round,
        limit,
        tries,
        root.take_history(),
        directory,
    )
}

/// Settles a round of the field by so many workers, at least one, and at most so many tries. The workers visit nodes,
/// each in a thread of its own where one can be made, until the root has an answer, or a node is to try an item and no
/// try is left, or they can't go on; all of them are joined. `Closed` and `Open` are the root's answer to the round's
/// first task: an offer that solves the root, or that none does. `Spent` comes only where the limit is reached and some
/// node is to try an item. Where the nodes that the workers leave show none of these, they are dropped, and the calling
/// thread settles the round alone with the tries that are left; its nodes are then the answer's. Each node's history is
/// a run of lawful events. The key names the tree of the field. The only error is want of memory. It may wait, and that
/// it returns is not promised.
pub fn negotiate<F: Field + Sync, K: Key<F> + Send + Sync, G: Gate, R: Threads + Wait + Sync>(
    rt: &R,
    alloc: Global,
    field: &F,
    round: u32,
    workers: u32,
    limit: u64,
    gate: &G,
) -> Result<PoolRun<F>, AllocError>
    requires workers { 0 < workers }
    requires key { K.tree ≡ Some (F.tree field.now) }
    ensures tries { IfOk result (λ run. run.tries ≤ limit) }
    ensures nodes { IfOk result (λ run. AreOfRound F.Offer.tree (F.tree field.now) round run.nodes) }
    ensures end { IfOk result (λ run.
        IsTrueEnd F.Offer.tree (F.tree field.now) round limit run.tries run.nodes run.end) }
{
    let number = Blank::new(workers as u64);
    let cap = Blank::new(1);
    negotiate_in::<Brand, Brand, F, K, G, R>(
        rt, alloc, field, round, workers, limit, gate, number, cap,
    )
}
