//! What a worker does: it visits nodes until the stop flag is set.

ghost use Rattle.std.specs.Prelude.{◌≡◌, ◌<◌, Some, IfSome};
ghost use denote.Param.Send.{IsSend};
ghost use Rattle.nego_node.specs.Lawful.{task_of};
ghost use Rattle.nego_node.specs.Sound.{Belongs};
ghost use Rattle.nego_lock.specs.Visits.{MessageBelongs, OutgoingBelongs};

use crate::desk::Desk;
use crate::entry::Entry;
use crate::gate::Gate;
use nego_laws::field::{Field, Offer};
use nego_lock::directory::Directory;
use nego_lock::locked::{Key, LockedNode, StopFlag};
use nego_lock::visit::{Message, Outgoing, Visit, VisitError};
use nego_node::answers::Answer;
use nego_node::misfits::Misfit;
use nego_node::node::NodeState;
use nego_node::tasks::Side;
use std::alloc::{AllocError, Global};
use std::sync::atomic::AtomicU64;
use std::sync::ledger::Ledger;
use std::sync::{Mutex, Wait};
use std::thread;
use std::thread::Threads;
use std::time::Duration;
use step_book::{Book, Share};

/// The name of the root.
pub(crate) const ROOT: u128 = 1;

/// How often a worker looks for work in vain before it sleeps.
const LOOKS: u32 = 64;

/// How long it sleeps then, in microseconds.
const SLEEP: u64 = 100;

/// What the workers share. The root stands here, and every other node in the directory. The pause is a word that stays
/// 0, on which workers without work sleep.
#[derive(Drop)]
pub(crate) struct Table<'a, F: Field, K: Key<F>, G: Gate, N: Ledger, M: Ledger, R: Wait> {
    pub(crate) rt: &'a R,
    pub(crate) alloc: Global,
    pub(crate) round: u32,
    pub(crate) field: &'a F,
    pub(crate) gate: &'a G,
    pub(crate) root: &'a LockedNode<F, K>,
    pub(crate) directory: &'a Directory<F, K>,
    pub(crate) stop: &'a StopFlag,
    pub(crate) pause: &'a AtomicU64,
    pub(crate) book: &'a Book<N, M>,
    pub(crate) desks: &'a [Mutex<Desk<F, K>>],
}

/// What a worker does next: it stays at the node, goes on to another, or stops all.
#[derive(Clone, Copy, PartialEq, Eq)]
enum Flow {
    Stays,
    GoesOn,
    Stops,
}

/// Opens a part that has received nothing.
fn open_part<F: Field, K: Key<F>, G: Gate, N: Ledger, M: Ledger, R: Wait>(
    field: &F,
    table: &Table<'_, F, K, G, N, M, R>,
    site: F::Site,
) -> Result<(), AllocError>
    requires key { K.tree ≡ Some (F.tree field.now) }
    requires site { F.around site ≡ F.tree field.now }
{
    let name = field.name(&site);
    let state = NodeState::begin(table.alloc, site, name, table.round);
    table.directory.open(table.rt, name, LockedNode::new(state))
}

/// The answer of a node, for its parent.
fn answer_entry<F: Field, K: Key<F>>(field: &F, node: u128, answer: Answer<F::Offer>) -> Entry<F, K>
    requires key { K.tree ≡ Some (F.tree field.now) }
    requires belongs { Belongs F.Offer.tree (F.tree field.now) (task_of answer) }
{
    let side = if node % 2 == 0 {
        Side::Left
    } else {
        Side::Right
    };
    Entry::bringing(field, node / 2, Message::Answer(side, answer))
}

/// Queues what a visit of a node hands on, and answers whether the worker stays at the node. Both parts stand in the
/// directory before anything is queued for them. The workers stop once the root has an answer.
fn hand_on<F: Field, K: Key<F>, G: Gate, N: Ledger, M: Ledger, R: Wait>(
    field: &F,
    table: &Table<'_, F, K, G, N, M, R>,
    desk: &mut Desk<F, K>,
    node: u128,
    out: Outgoing<F>,
) -> Result<Flow, AllocError>
    requires key { K.tree ≡ Some (F.tree field.now) }
    requires belongs { OutgoingBelongs F.Offer.tree F.around (F.tree field.now) out }
{
    match out {
        Outgoing::Nothing => Ok(Flow::Stays),
        Outgoing::Task(task) => {
            let part = task.get().node;
            desk.put_task(Entry::bringing(field, part, Message::Task(task)))?;
            Ok(Flow::Stays)
        }
        Outgoing::Sites(left, right) => {
            open_part(field, table, left)?;
            open_part(field, table, right)?;
            Ok(Flow::Stays)
        }
        Outgoing::Answer(answer) => {
            if node == ROOT {
                return Ok(Flow::Stops);
            }
            desk.put(answer_entry(field, node, answer))?;
            Ok(Flow::GoesOn)
        }
    }
}

/// Visits a node once, and answers whether the worker stays there. A stale message is dropped. Any other that does not
/// fit stops the workers, and so does a node that is to try an item where no try is left.
fn visit_once<F: Field, K: Key<F>, G: Gate, N: Ledger, M: Ledger, R: Wait>(
    field: &F,
    table: &Table<'_, F, K, G, N, M, R>,
    desk: &mut Desk<F, K>,
    share: &mut Share<N>,
    node: u128,
    locked: &LockedNode<F, K>,
    message: Option<Message<F>>,
) -> Result<Flow, VisitError>
    requires key { K.tree ≡ Some (F.tree field.now) }
    requires message { IfSome message (MessageBelongs F.Offer.tree (F.tree field.now)) }
{
    table.gate.before(node);
    match locked.visit(table.rt, field, message, table.stop, table.book, share)? {
        Visit::Did(out) => {
            let flow = hand_on(field, table, desk, node, out)?;
            Ok(flow)
        }
        Visit::Waits | Visit::Misfit(Misfit::Stale { .. }) => Ok(Flow::GoesOn),
        Visit::Spent | Visit::Misfit(_) => Ok(Flow::Stops),
    }
}

/// Stays at a node while it may go on by itself, and while others bring it messages. Then it queues the task that was
/// put off.
fn stay<F: Field, K: Key<F>, G: Gate, N: Ledger, M: Ledger, R: Wait>(
    field: &F,
    table: &Table<'_, F, K, G, N, M, R>,
    desk: &mut Desk<F, K>,
    share: &mut Share<N>,
    node: u128,
    locked: &LockedNode<F, K>,
) -> Result<Flow, VisitError>
    requires { K.tree ≡ Some (F.tree field.now) }
{
    let mut flow = Flow::Stays;
    let mut seen = 1;
    for _ in table.rt.forever() {
        flow = visit_once(field, table, desk, share, node, locked, None)?;
        match flow {
            Flow::Stays => continue,
            Flow::Stops => break,
            Flow::GoesOn => match locked.leave(seen) {
                Ok(()) => break,
                Err(more) => seen = more,
            },
        }
    }
    desk.put_rest()?;
    Ok(flow)
}

/// Brings a message to a node, and stays there, unless another worker does: that one sees to what was brought.
fn visit_node<F: Field, K: Key<F>, G: Gate, N: Ledger, M: Ledger, R: Wait>(
    field: &F,
    table: &Table<'_, F, K, G, N, M, R>,
    desk: &mut Desk<F, K>,
    share: &mut Share<N>,
    node: u128,
    locked: &LockedNode<F, K>,
    message: Message<F>,
) -> Result<Flow, VisitError>
    requires key { K.tree ≡ Some (F.tree field.now) }
    requires message { MessageBelongs F.Offer.tree (F.tree field.now) message }
{
    let flow = visit_once(field, table, desk, share, node, locked, Some(message))?;
    if flow != Flow::Stays {
        return Ok(flow);
    }
    if !locked.arrive() {
        return Ok(Flow::GoesOn);
    }
    stay(field, table, desk, share, node, locked)
}

/// Does what an entry asks. One for a node that the directory does not find stops the workers.
fn serve<F: Field, K: Key<F>, G: Gate, N: Ledger, M: Ledger, R: Wait>(
    field: &F,
    table: &Table<'_, F, K, G, N, M, R>,
    desk: &mut Desk<F, K>,
    share: &mut Share<N>,
    entry: Entry<F, K>,
) -> Result<Flow, VisitError>
    requires { K.tree ≡ Some (F.tree field.now) }
{
    let (node, message) = entry.into_parts(field);
    if node == ROOT {
        return visit_node(field, table, desk, share, node, table.root, message);
    }
    let Some(found) = table.directory.find(table.rt, node)? else {
        return Ok(Flow::Stops);
    };
    visit_node(field, table, desk, share, node, &found, message)
}

/// What a worker does that has looked for work so often in vain: it lets other threads run, or sleeps.
fn rest<F: Field, K: Key<F>, G: Gate, N: Ledger, M: Ledger, R: Wait>(
    table: &Table<'_, F, K, G, N, M, R>,
    in_vain: u32,
) {
    if in_vain < LOOKS {
        thread::yield_now();
    } else {
        table
            .pause
            .park_timeout(table.rt, 0, Duration::from_micros(SLEEP));
    }
}

/// Works at the desk of that number until the stop flag is set. A worker that finds nothing to do looks again.
fn work<F: Field, K: Key<F>, G: Gate, N: Ledger, M: Ledger, R: Wait>(
    field: &F,
    table: &Table<'_, F, K, G, N, M, R>,
    number: usize,
    share: &mut Share<N>,
)
    requires { K.tree ≡ Some (F.tree field.now) }
{
    let Some(mine) = table.desks.get(number) else {
        table.stop.set();
        return;
    };
    let mut guard = mine.lock(table.rt);
    let desk = &mut *guard;
    let mut in_vain: u32 = 0;
    for _ in table.rt.forever() {
        if table.stop.is_set() {
            break;
        }
        let Some(entry) = desk.next_entry() else {
            rest(table, in_vain);
            in_vain = in_vain.saturating_add(1);
            continue;
        };
        in_vain = 0;
        if !matches!(serve(field, table, desk, share, entry), Ok(Flow::GoesOn)) {
            table.stop.set();
        }
    }
}

/// Runs the workers, one for each share, each in a thread of its own where one can be made, and joins them. The calling
/// thread is one.
pub(crate) fn run_workers<
    F: Field + Sync,
    K: Key<F> + Send + Sync,
    G: Gate,
    N: Ledger + Send + Sync,
    M: Ledger + Send + Sync,
    R: Threads + Wait + Sync,
>(table: &Table<'_, F, K, G, N, M, R>, shares: &mut [Share<N>], workers: u32)
    requires some { 0 < workers }
    requires key { K.tree ≡ Some (F.tree table.now.field.now) }
{
    thread::for_each_mut(
        table.rt,
        shares,
        workers as usize,
        &|number: usize, share: &mut Share<N>|
            requires { IsSend F.Offer.row × IsSend F.Site.row × (K.tree ≡ Some (F.tree table.now.field.now)) }
        { work(table.field, table, number, share) },
    );
}
