//! A run on a small problem.

use crate::{Status, run_alone};
use deepening::Kept;
use gl_outside::{Files, MemorySink, SoundShelf};
use std::alloc::{AllocError, Global};

/// The words `prove` and `-`.
fn words(alloc: Global) -> Result<Vec<String>, AllocError> {
    let mut words = Vec::new(alloc);
    words.push(String::from_str(alloc, "prove")?)?;
    words.push(String::from_str(alloc, "-")?)?;
    Ok(words)
}

/// A shelf with this text under the name `-`.
fn shelf_of(alloc: Global, text: &[u8]) -> Result<SoundShelf, AllocError> {
    let mut files = Files::new(alloc);
    let name = String::from_str(alloc, "-")?;
    files.add(name, Vec::from_slice(alloc, text)?)?;
    Ok(SoundShelf::new(files))
}

/// Whether a run on this text ends so, and writes these bytes.
fn ends(alloc: Global, text: &[u8], status: Status, bytes: &[u8]) -> Result<bool, AllocError> {
    let words = words(alloc)?;
    let mut shelf = shelf_of(alloc, text)?;
    let mut out = MemorySink::new(alloc, 250)?;
    let mut kept = Kept::new(alloc);
    let ended = run_alone(alloc, words.as_slice(), &mut shelf, &mut out, &mut kept);
    Ok(ended == status && out.bytes() == bytes)
}

#[test]
fn proves_the_excluded_middle(rt: HostRuntime) -> Result<(), AllocError> {
    let bytes = b"% SZS status Theorem for -\n% depth 1\n% engine plain\n\
          % SZS output start Proof for -\ngs3 1\nalpha 0\nalpha 2\nclose 3 1\n% SZS output end Proof for -\n";
    let proved = ends(
        rt.alloc(),
        b"fof(c,conjecture,(p|~p)).\n",
        Status::Proved,
        bytes,
    )?;
    assert!(rt; proved);
    Ok(())
}
