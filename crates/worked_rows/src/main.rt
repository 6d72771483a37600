//! Runs each line of its input as a shell would run it, and prints what is written and how the run ends.
//!
//! A line is `goeland` or `gs3check` with words, then at most one `< FILE`, which is the standard input, and at most
//! one `> BYTES`, the room of the standard output. Files lie in the folder; `blanks.N` stands for N blanks. What a run
//! of the prover proves of the standard input goes to the checker, whose answer is printed too.
#![tactic(auto)]

mod row;
mod running;
mod shelves;

use crate::row::row_of;
use crate::running::run_row;
use gl_outside::HostShelf;
use std::io::{self, Write};

fn main(rt: HostRuntime) -> io::Result<()> {
    let alloc = rt.alloc();
    let mut folder = HostShelf::new(&rt);
    for line in rt.lines(alloc) {
        let line = line?;
        let row = row_of(alloc, line.as_str())?;
        let ran = run_row(alloc, &mut folder, &row)?;
        println!(rt; "$ {line}")?;
        io::writer(&rt).write_all(ran.written.as_slice())?;
        println!(rt; "{}\n", ran.ended)?;
    }
    Ok(())
}
