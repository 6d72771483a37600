//! Checks of small proofs, and of words, problems and shelves that are amiss.

use crate::{CheckStatus, check_run};
use gl_outside::{Files, MemoryShelf, MemorySink};
use std::alloc::{AllocError, Global};

const PROBLEM: &[u8] = b"fof(a,axiom,p).\nfof(b,axiom,p=>q).\nfof(c,conjecture,q).\n";

/// Someone drinks only where all do.
const DRINKER: &[u8] = b"fof(c,conjecture,?[X]:(d(X)=>![Y]:d(Y))).\n";

/// The axiom `p` alone, and a second statement that is none.
const BROKEN: &[u8] = b"fof(a,axiom,p).\nfof(b,axiom,p&).\n";

const USAGE: &[u8] = b"% usage: gs3check PROBLEM PROOF\n";

const READ_FAULT: &[u8] = b"% read fault\n";

const VALID: &[u8] = b"% gs3check Valid\n";

fn add(alloc: Global, files: &mut Files, name: &str, bytes: &[u8]) -> Result<(), AllocError> {
    let name = String::from_str(alloc, name)?;
    let bytes = Vec::from_slice(alloc, bytes)?;
    files.add(name, bytes)
}

/// Three problems under the names `p`, `d` and `b`, and these bytes under the name `-`.
fn shelf(alloc: Global, proof: &[u8]) -> Result<MemoryShelf, AllocError> {
    let mut files = Files::new(alloc);
    add(alloc, &mut files, "p", PROBLEM)?;
    add(alloc, &mut files, "d", DRINKER)?;
    add(alloc, &mut files, "b", BROKEN)?;
    add(alloc, &mut files, "-", proof)?;
    Ok(MemoryShelf::new(files))
}

fn strings(alloc: Global, words: &[&str]) -> Result<Vec<String>, AllocError> {
    let mut list = Vec::new(alloc);
    for word in words {
        list.push(String::from_str(alloc, word)?)?;
    }
    Ok(list)
}

/// Whether the check with these words ends so and says so of the bytes, where the output has that much room.
fn says(
    alloc: Global,
    words: &[&str],
    proof: &[u8],
    room: usize,
    status: CheckStatus,
    line: &[u8],
) -> Result<bool, AllocError> {
    let words = strings(alloc, words)?;
    let mut shelf = shelf(alloc, proof)?;
    let mut out = MemorySink::new(alloc, room)?;
    let ended = check_run(alloc, words.as_slice(), &mut shelf, &mut out);
    Ok(ended == status && out.bytes() == line)
}

#[test]
fn takes_a_proof_and_names_the_line_that_cannot_go_on(rt: HostRuntime) -> Result<(), AllocError> {
    let rows: [(&[u8], CheckStatus, &[u8]); 6] = [
        (
            b"% SZS status Theorem for -\n%\n%\n%\ngs3 1\nbeta 1\nclose 0 3\nclose 3 2\n% end\n",
            CheckStatus::Valid,
            VALID,
        ),
        (
            b"%\n%\n%\n%\ngs3 1\nbeta 1\nclose 0 3\n%\n",
            CheckStatus::Invalid,
            b"% gs3check Malformed 9\n",
        ),
        (
            b"%\n%\n%\n%\ngs3 1\nbeta 1\nclose 0 3\nclose 03 2\n%\n",
            CheckStatus::Invalid,
            b"% gs3check Malformed 8\n",
        ),
        (
            b"gs3 1\nbeta 1\nclose 0 3\nclose 3 2\nclose 3 2\n",
            CheckStatus::Invalid,
            b"% gs3check Malformed 5\n",
        ),
        (
            b"%\n%\n%\n%\ngs3 1\nbeta 1\nclose 0 9\nclose 3 2\n%\n",
            CheckStatus::Invalid,
            b"% gs3check Wrong 7\n",
        ),
        (
            b"gs3 1\nbeta 1\n%\nclose 0 3\n%\n%\nclose 3 0\n",
            CheckStatus::Invalid,
            b"% gs3check Wrong 7\n",
        ),
    ];
    for (proof, status, line) in rows {
        let told = says(rt.alloc(), &["p", "-"], proof, 100, status, line)?;
        assert!(rt; told);
    }
    Ok(())
}

#[test]
fn checks_a_proof_with_quantifiers(rt: HostRuntime) -> Result<(), AllocError> {
    let rows: [(&[u8], CheckStatus, &[u8]); 3] = [
        (
            b"gs3 1\ngamma 0 #0\nalpha 1\ndelta 3 #1\ngamma 0 #1\nalpha 5\nclose 6 4\n",
            CheckStatus::Valid,
            VALID,
        ),
        (
            b"gs3 1\ngamma 0 #0\nalpha 1\ndelta 3 #0\ngamma 0 #1\nalpha 5\nclose 6 4\n",
            CheckStatus::Invalid,
            b"% gs3check Wrong 4\n",
        ),
        (
            b"gs3 1\ngamma 0 e\nalpha 1\ndelta 3 #1\ngamma 0 #1\nalpha 5\nclose 6 4\n",
            CheckStatus::Invalid,
            b"% gs3check Malformed 2\n",
        ),
    ];
    for (proof, status, line) in rows {
        let told = says(rt.alloc(), &["d", "-"], proof, 100, status, line)?;
        assert!(rt; told);
    }
    Ok(())
}

#[test]
fn says_what_is_amiss_with_the_names(rt: HostRuntime) -> Result<(), AllocError> {
    let rows: [(&[&str], CheckStatus, &[u8]); 6] = [
        (&["-"], CheckStatus::Usage, USAGE),
        (&["-", "-"], CheckStatus::Usage, USAGE),
        (&["p", ""], CheckStatus::Usage, USAGE),
        // The problem is missing, the proof is missing, and both the problem is refused and the proof is missing.
        (&["none", "-"], CheckStatus::ReadFault, READ_FAULT),
        (&["p", "none"], CheckStatus::ReadFault, READ_FAULT),
        (
            &["b", "none"],
            CheckStatus::Refused,
            b"% refused Syntax at 16\n",
        ),
    ];
    for (words, status, line) in rows {
        let told = says(rt.alloc(), words, b"", 100, status, line)?;
        assert!(rt; told);
    }
    Ok(())
}

#[test]
fn writes_what_has_room(rt: HostRuntime) -> Result<(), AllocError> {
    let fault = CheckStatus::WriteFault;
    let cut = says(rt.alloc(), &["p", "-"], b"gs3 1\n", 3, fault, b"% g")?;
    assert!(rt; cut);
    Ok(())
}
