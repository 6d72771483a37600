//! The runs of the prover.

use crate::meeting::Meeting;
use deepening::Kept;
use gl_outside::{FetchError, Files, MemoryShelf, MemorySink, Shelf};
use goeland_run::{Status, run};
use gs3_run::{CheckStatus, check_run};
use nego_node::node::NodeState;
use std::alloc::{AllocError, Global};
use std::sync::Wait;
use std::sync::atomic::Ordering::SeqCst;
use std::thread::Threads;
use tab_field::TabField;
use tab_tree::Engine;

/// The room of a run's output, in bytes.
const ROOM: usize = 1_000_000;

/// A shelf with these bytes under that name.
fn shelf_with(alloc: Global, name: &str, bytes: &[u8]) -> Result<MemoryShelf, AllocError> {
    let mut files = Files::new(alloc);
    files.add(
        String::from_str(alloc, name)?,
        Vec::from_slice(alloc, bytes)?,
    )?;
    Ok(MemoryShelf::new(files))
}

/// What the checker says of a proof of the problem.
fn checked(alloc: Global, problem: &[u8], proof: &[u8]) -> Result<CheckStatus, AllocError> {
    let mut words = Vec::new(alloc);
    words.push(String::from_str(alloc, "problem")?)?;
    words.push(String::from_str(alloc, "proof")?)?;
    let mut files = Files::new(alloc);
    files.add(
        String::from_str(alloc, "problem")?,
        Vec::from_slice(alloc, problem)?,
    )?;
    files.add(
        String::from_str(alloc, "proof")?,
        Vec::from_slice(alloc, proof)?,
    )?;
    let mut shelf = MemoryShelf::new(files);
    let mut out = MemorySink::new(alloc, 100)?;
    Ok(check_run(alloc, words.as_slice(), &mut shelf, &mut out))
}

/// Whether a node was visited at least as often as its history has events, where the gate counts its visits.
fn is_visited(gate: &Meeting, node: &NodeState<TabField>) -> bool {
    let events = node.history().as_slice().len() as u64;
    match gate.visits(node.node_name()) {
        Some(visits) => visits.load(SeqCst) >= events,
        None => true,
    }
}

/// Whether each node that the gate counts was visited at least as often as its history has events, where the workers
/// settled the last round.
fn all_visited(gate: &Meeting, kept: &Kept) -> Option<bool> {
    if kept.engine != Some(Engine::Agents) {
        return None;
    }
    for node in kept.nodes.as_slice() {
        if !is_visited(gate, node) {
            return Some(false);
        }
    }
    Some(true)
}

/// Whether the words ask for a proof.
fn is_prove(words: &[String]) -> bool {
    match words.first() {
        Some(word) => word.as_str() == "prove",
        None => false,
    }
}

/// Tells how a run on the problem ended.
pub(crate) fn run_row<R: Threads + Wait + Sync>(
    rt: &R,
    alloc: Global,
    words: &[String],
    problem: &[u8],
) -> Result<String, AllocError> {
    let mut shelf = shelf_with(alloc, "-", problem)?;
    let mut out = MemorySink::new(alloc, ROOM)?;
    let mut kept = Kept::new(alloc);
    let gate = Meeting::new();
    let status = run(rt, alloc, words, &mut shelf, &mut out, &gate, &mut kept);
    let answer = match status {
        Status::Proved if is_prove(words) => Some(checked(alloc, problem, out.bytes())?),
        _ => None,
    };
    let met = gate.met.load(SeqCst);
    let late = gate.late.load(SeqCst);
    format!(in alloc;
        "{status:?} at depth {}, engine {:?}, gs3check {answer:?}, given up {}, met {met}, late {late}, visited {:?}",
        kept.depth,
        kept.engine,
        kept.given_up.is_some(),
        all_visited(&gate, &kept)
    )
}
