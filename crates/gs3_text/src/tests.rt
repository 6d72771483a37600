//! Texts that are read and written.

use crate::{TextError, read_tree, write_tree};
use fol_core::Symbols;
use std::alloc::AllocError;
use std::test::*;

/// The output for the axioms `p` and `p=>q` and the conjecture `q`.
const CHAIN: &[u8] = b"% SZS status Theorem for -\n% depth 1\n% engine plain\n\
      % SZS output start Proof for -\ngs3 1\nbeta 1\nclose 0 3\nclose 3 2\n% SZS output end Proof for -\n";

/// A text, and the line that cannot go on; 0 for a text of a proof.
const TEXTS: [(&[u8], u64); 27] = [
    (CHAIN, 0),
    // The output for the conjecture `?[X]:(d(X)=>![Y]:d(Y))`, and changes of it.
    (
        b"%\n%\n%\n%\ngs3 1\ngamma 0 #0\nalpha 1\ndelta 3 #1\ngamma 0 #1\nalpha 5\nclose 6 4\n%\n",
        0,
    ),
    (
        b"%\n%\n%\n%\ngs3 1\ngamma 0 #0\nalpha 1\ndelta 3 #1\ngamma 0 #1\nalpha 5\n%\n",
        12,
    ),
    (
        b"%\n%\n%\n%\ngs3 1\ngamma 0 #0\nalpha 1\ndelta 3 #1\ngamma 0 #1\nalpha 5\nclose 06 4\n%\n",
        11,
    ),
    (
        b"%\n%\n%\n%\ngs3 1\ngamma 0 #0\nalpha 1\ndelta 3 #1\ngamma 0 #1\nalpha 5\nclose 6 4\n%\nclose 6 4\n",
        13,
    ),
    (
        b"%\n%\n%\n%\ngs3 1\ngamma 0 e\nalpha 1\ndelta 3 #1\ngamma 0 #1\nalpha 5\nclose 6 4\n%\n",
        6,
    ),
    // A step is missing, has a leading zero, stands in another's place, or is one too many.
    (b"%\n%\n%\n%\ngs3 1\nbeta 1\nclose 0 3\n% end\n", 9),
    (b"%\n%\n%\n%\ngs3 1\nbeta 1\nclose 0 3\nclose 03 2\n%\n", 8),
    (
        b"%\n%\n%\n%\ngs3 1\ngamma 0 #0\nclose 0 3\nclose 3 2\n%\n",
        8,
    ),
    (b"gs3 1\nbeta 1\nclose 0 3\nclose 3 2\n%\nclose 3 2\n", 6),
    // The numbers of a step.
    (b"gs3 1\nclose 06 4\n", 2),
    (b"gs3 1\nclose 6 +4\n", 2),
    (b"gs3 1\nclose 6  4\n", 2),
    (b"gs3 1\nclose 6 4 \n", 2),
    (b"gs3 1\nclose 0 4294967295\n", 0),
    (b"gs3 1\nclose 0 4294967296\n", 2),
    (b"gs3 1\ndelta 0 #18446744073709551615\nfalse 0\n", 0),
    (b"gs3 1\ndelta 0 #18446744073709551616\nfalse 0\n", 2),
    // The symbols `f` with one argument, `a` and `it's` with none.
    (b"gs3 1\ngamma 0 f(f(#0))\nfalse 0\n", 0),
    (b"gs3 1\ngamma 0 f('it\\'s')\nfalse 0\n", 0),
    (b"gs3 1\ngamma 0 f('a')\nfalse 0\n", 2),
    (b"gs3 1\ngamma 0 f(a,a)\nfalse 0\n", 2),
    (b"gs3 1\ngamma 0 e\nfalse 0\n", 2),
    // Where the text ends.
    (b"", 1),
    (b"gs3 1\nfalse 0", 2),
    (b"gs3 1\nfalse 0\n% no line feed", 3),
    (b"gs3 2\nfalse 0\n", 1),
];

fn symbols(rt: HostRuntime) -> Result<Symbols, AllocError> {
    let mut symbols = Symbols::new(rt.alloc());
    symbols.intern_function(b"f", 1)?;
    symbols.intern_function(b"a", 0)?;
    symbols.intern_function(b"it's", 0)?;
    Ok(symbols)
}

#[test]
fn finds_the_line(rt: HostRuntime) -> Result<(), AllocError> {
    let symbols = symbols(rt)?;
    for (text, wanted) in TEXTS {
        let line = match read_tree(rt.alloc(), &symbols, text) {
            Ok(_) => 0,
            Err(TextError::Malformed { line }) => line,
            Err(TextError::OutOfMemory) => u64::MAX,
        };
        assert_eq!(rt; line, wanted);
    }
    Ok(())
}

/// A proof with a term that nests that deep.
fn nested(rt: HostRuntime, depth: u32) -> Result<Vec<u8>, AllocError> {
    let mut text = Vec::from_slice(rt.alloc(), b"gs3 1\ngamma 0 ")?;
    for _ in 1..depth {
        text.extend_from_slice(b"f(")?;
    }
    text.extend_from_slice(b"a")?;
    for _ in 1..depth {
        text.extend_from_slice(b")")?;
    }
    text.extend_from_slice(b"\nfalse 0\n")?;
    Ok(text)
}

#[test]
fn counts_the_nesting(rt: HostRuntime) -> Result<(), AllocError> {
    let symbols = symbols(rt)?;
    assert!(rt; read_tree(rt.alloc(), &symbols, &nested(rt, 4096)?).is_ok());
    assert!(rt;
        matches!(
            read_tree(rt.alloc(), &symbols, &nested(rt, 4097)?),
            Err(TextError::Malformed { line: 2 })
        )
    );
    Ok(())
}

#[test]
fn writes_what_was_read(rt: HostRuntime) -> Result<(), AllocError> {
    let symbols = Symbols::new(rt.alloc());
    let Ok(read) = read_tree(rt.alloc(), &symbols, CHAIN) else {
        assert!(rt; false);
        return Ok(());
    };
    assert_eq!(rt; read.tree.steps().len(), 3);
    assert_eq!(rt; read.lines.as_slice(), [6, 7, 8].as_slice());
    let text = write_tree(rt.alloc(), &symbols, &read.tree)?;
    assert_eq!(rt;
        text.as_slice(),
        b"gs3 1\nbeta 1\nclose 0 3\nclose 3 2\n".as_slice()
    );
    Ok(())
}
