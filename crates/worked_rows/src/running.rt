//! The runs of the two programs.

use crate::row::Row;
use crate::shelves::shelf_of;
use deepening::Kept;
use gl_outside::{Files, MemoryShelf, MemorySink, Shelf};
use goeland_run::{Status, run_alone};
use gs3_run::{CheckStatus, check_run};
use std::alloc::{AllocError, Global};

/// What a run wrote, and how it ended.
#[derive(Drop)]
pub(crate) struct Ran {
    pub(crate) written: Vec<u8>,
    pub(crate) ended: String,
}

/// What the checker says of a proof of the problem.
fn checked(alloc: Global, problem: Vec<u8>, proof: &[u8]) -> Result<CheckStatus, AllocError> {
    let mut words = Vec::new(alloc);
    words.push(String::from_str(alloc, "problem")?)?;
    words.push(String::from_str(alloc, "proof")?)?;
    let mut files = Files::new(alloc);
    files.add(String::from_str(alloc, "problem")?, problem)?;
    files.add(
        String::from_str(alloc, "proof")?,
        Vec::from_slice(alloc, proof)?,
    )?;
    let mut shelf = MemoryShelf::new(files);
    let mut out = MemorySink::new(alloc, 100)?;
    Ok(check_run(alloc, words.as_slice(), &mut shelf, &mut out))
}

/// How a run of the prover ended that wrote this, and what the checker says of a proof of the standard input.
fn ending(
    alloc: Global,
    status: Status,
    shelf: &mut MemoryShelf,
    written: &[u8],
) -> Result<String, AllocError> {
    let problem = match shelf.fetch(alloc, "-", u64::MAX) {
        Ok(problem) if status == Status::Proved => problem,
        _ => return format!(in alloc; "{status:?}"),
    };
    let answer = checked(alloc, problem, written)?;
    format!(in alloc; "{status:?}, and gs3check says {answer:?}")
}

/// Runs the prover.
fn run_prover(
    alloc: Global,
    words: &[String],
    shelf: &mut MemoryShelf,
    room: usize,
) -> Result<Ran, AllocError> {
    let mut out = MemorySink::new(alloc, room)?;
    let mut kept = Kept::new(alloc);
    let status = run_alone(alloc, words, shelf, &mut out, &mut kept);
    Ok(Ran {
        written: Vec::from_slice(alloc, out.bytes())?,
        ended: ending(alloc, status, shelf, out.bytes())?,
    })
}

/// Runs the checker.
fn run_checker(
    alloc: Global,
    words: &[String],
    shelf: &mut MemoryShelf,
    room: usize,
) -> Result<Ran, AllocError> {
    let mut out = MemorySink::new(alloc, room)?;
    let status = check_run(alloc, words, shelf, &mut out);
    Ok(Ran {
        written: Vec::from_slice(alloc, out.bytes())?,
        ended: format!(in alloc; "{status:?}")?,
    })
}

/// Runs the line's program, on files of the folder.
pub(crate) fn run_row<S: Shelf>(
    alloc: Global,
    folder: &mut S,
    row: &Row,
) -> Result<Ran, AllocError> {
    let mut shelf = shelf_of(alloc, folder, row)?;
    match row.words.as_slice() {
        [program, words @ ..] if program.as_str() == "gs3check" => run_checker(
            alloc, words, &mut shelf, row.room,
        ),
        [_, words @ ..] => run_prover(alloc, words, &mut shelf, row.room),
        [] => run_prover(alloc, &[], &mut shelf, row.room),
    }
}
