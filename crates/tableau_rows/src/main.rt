//! Prints the tableau of each problem of the input, segment by segment.
//!
//! The problems stand between empty lines. The first line of each is the depth, with `off` behind it where no literal
//! is rewritten. A segment is told by its name, the number of entries at its end and where it splits, and then its
//! closing items, each with what the offer that makes it closed does to the whole tableau. At the end come two lists
//! that go on from one, as the lists of a branch do at a split.
#![tactic(auto)]

mod item;
mod lists;
mod round;
mod walk;

use crate::lists::forked;
use crate::round::round_of;
use crate::walk::push_tableau;
use std::alloc::{AllocError, Global};
use std::io::{self, Write};

/// The tableau of the problem behind a first line.
fn tableau(alloc: Global, first: &str, text: &[u8]) -> Result<Vec<u8>, AllocError> {
    let mut out = Vec::new(alloc);
    match round_of(alloc, first, text)? {
        None => out.extend_from_slice(b"no problem\n")?,
        Some(round) => push_tableau(alloc, &mut out, &round)?,
    }
    out.push(b'\n')?;
    Ok(out)
}

fn main(rt: HostRuntime) -> io::Result<()> {
    let alloc = rt.alloc();
    let mut first = String::new(alloc);
    let mut text = Vec::new(alloc);
    for line in rt.lines(alloc) {
        let line = line?;
        if line.is_empty() {
            let out = tableau(alloc, first.as_str(), text.as_slice())?;
            io::writer(&rt).write_all(out.as_slice())?;
            first.clear();
            text.clear();
        } else if first.is_empty() {
            first.push_str(line.as_str())?;
        } else {
            text.extend_from_slice(line.as_bytes())?;
            text.push(b'\n')?;
        }
    }
    let lists = forked(alloc)?;
    io::writer(&rt).write_all(lists.as_bytes())
}
