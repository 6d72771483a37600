//! Prints each line of its input, and what its words ask for.
#![tactic(auto)]

use goeland_words::read_words;
use std::alloc::{AllocError, Global};
use std::io;

/// The words of a line, with one blank between each two. An empty line has none.
fn words_of(alloc: Global, line: &str) -> Result<Vec<String>, AllocError> {
    let mut words = Vec::new(alloc);
    if line.is_empty() {
        return Ok(words);
    }
    for word in line.split(' ') {
        words.push(String::from_str(alloc, word)?)?;
    }
    Ok(words)
}

fn main(rt: HostRuntime) -> io::Result<()> {
    let alloc = rt.alloc();
    for line in rt.lines(alloc) {
        let line = line?;
        let words = words_of(alloc, line.as_str())?;
        let asked = read_words(alloc, words.as_slice());
        println!(rt; "{line}: {asked:?}")?;
    }
    Ok(())
}
