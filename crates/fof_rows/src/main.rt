//! Prints what each text of the input is read as. The texts stand between empty lines.
//!
//! First come the function symbols and the predicate symbols, each with its number of arguments, then each statement's
//! name and role, then the axioms and the conjecture. A formula is written with each operator before its parts:
//! `> p1 p0` is an implication, `=` an equivalence, and `! p2 f0 v0` a quantifier, the predicate symbol 2, and as its
//! arguments the function symbol 0 and the innermost variable.
#![tactic(auto)]

mod sizes;
mod written;

use crate::sizes::{deep_text, is_read_alike};
use crate::written::push_problem;
use fof_parse::{MAX_BYTES, ReadError, read_problem};
use std::alloc::{AllocError, Global};
use std::io::{self, Write};

/// Appends what the text is read as, a line for each thing.
fn push_answer(alloc: Global, out: &mut Vec<u8>, text: &[u8]) -> Result<(), AllocError> {
    match read_problem(alloc, text) {
        Ok(problem) => push_problem(alloc, out, &problem),
        Err(error) => {
            let refused = format!(in alloc; "{error:?}\n")?;
            out.extend_from_slice(refused.as_bytes())
        }
    }
}

/// Whether a text of so many blanks is too large.
fn is_too_large(alloc: Global, blanks: usize) -> Result<bool, AllocError> {
    let text = vec![in alloc; b' '; blanks]?;
    let answer = read_problem(alloc, text.as_slice());
    Ok(matches!(answer, Err(ReadError::TooLarge)))
}

fn main(rt: HostRuntime) -> io::Result<()> {
    let alloc = rt.alloc();
    let mut out = Vec::new(alloc);
    let mut text = Vec::new(alloc);
    for line in rt.lines(alloc) {
        let line = line?;
        if line.is_empty() {
            push_answer(alloc, &mut out, text.as_slice())?;
            out.push(b'\n')?;
            text.clear();
        } else {
            text.extend_from_slice(line.as_bytes())?;
            text.push(b'\n')?;
        }
    }
    io::writer(&rt).write_all(out.as_slice())?;
    let deep = deep_text(alloc)?;
    let alike = is_read_alike(alloc, deep.as_slice())?;
    println!(rt;
        "{} bytes of one deep formula are read alike: {alike}",
        deep.len()
    )?;
    let whole = is_too_large(alloc, MAX_BYTES)?;
    let more = is_too_large(alloc, MAX_BYTES + 1)?;
    println!(rt; "{MAX_BYTES} bytes are too large: {whole}; one more: {more}")
}
