//! Runs the prover with several workers on each line of its input, and prints what is the same in each run.
//!
//! A line is a file of the folder, which is the standard input, and the words of `prove`, with one blank between each
//! two. A gate holds the first visit of each of the root's parts until one of the other part has begun.
#![tactic(auto)]

mod meeting;
mod running;

use crate::running::run_row;
use gl_outside::{HostShelf, Shelf};
use std::alloc::{AllocError, Global};
use std::io;

/// The words of a line.
fn words_of(alloc: Global, line: &str) -> Result<Vec<String>, AllocError> {
    let mut words = Vec::new(alloc);
    for word in line.split(' ') {
        words.push(String::from_str(alloc, word)?)?;
    }
    Ok(words)
}

fn main(rt: HostRuntime) -> io::Result<()> {
    let alloc = rt.alloc();
    let mut folder = HostShelf::new(&rt);
    for line in rt.lines(alloc) {
        let line = line?;
        let words = words_of(alloc, line.as_str())?;
        let [file, words @ ..] = words.as_slice() else {
            continue;
        };
        let problem = match folder.fetch(alloc, file.as_str(), 1 << 30) {
            Ok(problem) => problem,
            Err(_) => Vec::new(alloc),
        };
        let told = run_row(&rt, alloc, words, problem.as_slice())?;
        println!(rt; "{line}: {told}")?;
    }
    Ok(())
}
