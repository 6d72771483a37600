//! Reading a proof text.

ghost use Rattle.std.specs.Prelude.{◌≡◌, IfOk, IfErr};
ghost use Rattle.gs3_rules.specs.Apply.{rules_of};
ghost use Rattle.gs3_text.specs.Answer.{IsRefused};
ghost use Rattle.gs3_text.specs.ProofText.{IsReading, IsSpellableTerm};
ghost use Rattle.std.specs.List.{AllByRecursion};

use crate::fault::Fault;
use crate::scan::{Lines, Scan};
use crate::tree::{Tree, tree_of};
use crate::{scan, table};
use fol_core::Symbols;
use std::alloc::Global;
use thiserror::Error;

/// A proof and where it stands in its text.
#[derive(Drop)]
pub struct ReadTree {
    pub tree: Tree,
    /// The number of each step's line, the lines of the text counted from 1.
    pub lines: Lines,
}

/// Why no proof was read.
#[derive(Clone, Copy, Debug, PartialEq, Eq, Error)]
pub enum TextError {
    /// The bytes are no text of a proof, and this is the first line that cannot go on, the lines counted from 1.
    #[error("no proof's text goes on with line {line}")]
    Malformed { line: u64 },
    #[error("out of memory")]
    OutOfMemory,
}

fn scan_all(alloc: Global, symbols: &Symbols, bytes: &[u8]) -> Result<Scan, TextError>
    ensures read { IfOk result (λ s. IsReading symbols.now.functions bytes.now (rules_of s.steps) s.lines) }
    ensures refused { IfErr result (IsRefused symbols.now.functions bytes.now) }
{
    table::keeps_symbols(symbols);
    let mut scan = scan::new(alloc);
    let mut number: u64 = 1;
    let mut rest = bytes;
    'lines: while let Some((line, after)) = scan::line_at(rest) {
        match scan::next(alloc, symbols, number, line, &mut scan) {
            Ok(()) => {}
            Err(Fault::Malformed) => return Err(TextError::Malformed { line: number }),
            Err(Fault::OutOfMemory) => return Err(TextError::OutOfMemory),
        }
        number += 1;
        rest = after;
    }
    if !rest.is_empty() {
        return Err(TextError::Malformed { line: number });
    }
    if !scan::is_whole(&scan) {
        return Err(TextError::Malformed { line: number });
    }
    Ok(scan)
}

/// The proof of which the bytes are a text.
pub fn read_tree(alloc: Global, symbols: &Symbols, bytes: &[u8]) -> Result<ReadTree, TextError>
    ensures read { IfOk result (λ r. IsReading symbols.now.functions bytes.now (rules_of r.tree) r.lines) }
    ensures spellable { IfOk result (λ r. AllByRecursion (IsSpellableTerm symbols.now.functions) (rules_of r.tree)) }
    ensures refused { IfErr result (IsRefused symbols.now.functions bytes.now) }
{
    match scan_all(alloc, symbols, bytes) {
        Ok(
            Scan {
                owed: _,
                steps,
                lines,
            },
        ) => Ok(ReadTree {
            tree: tree_of(steps),
            lines,
        }),
        Err(error) => Err(error),
    }
}
