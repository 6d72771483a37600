//! A text whose formula is deep.

use fof_parse::{read_problem, start_list};
use fol_core::same;
use std::alloc::{AllocError, Global};

/// Appends so many further parts of a conjunction, and closes it.
fn push_parts(text: &mut Vec<u8>, times: u32) -> Result<(), AllocError> {
    for _ in 0..times {
        text.extend_from_slice(b"&p")?;
    }
    text.push(b')')?;
    Ok(())
}

/// A text of some 250,000 bytes, whose formula is more than 120,000 deep to the left: what a closed parenthesis
/// counted is forgotten.
pub fn deep_text(alloc: Global) -> Result<Vec<u8>, AllocError> {
    let mut text = Vec::from_slice(alloc, b"fof(a,axiom,")?;
    text.resize(12 + 498, b'(')?;
    text.push(b'p')?;
    for times in 0..498 {
        push_parts(&mut text, times)?;
    }
    text.extend_from_slice(b").")?;
    Ok(text)
}

/// Whether the text is a problem of one axiom, whose copy in the start list is the same formula.
pub fn is_read_alike(alloc: Global, text: &[u8]) -> Result<bool, AllocError> {
    let Ok(problem) = read_problem(alloc, text) else {
        return Ok(false);
    };
    let list = start_list(alloc, &problem)?;
    match (problem.axioms.as_slice(), list.as_slice()) {
        ([axiom], [copy]) => Ok(same(axiom, copy)),
        _ => Ok(false),
    }
}
