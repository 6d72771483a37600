//! The lines of a proof text, read one after the other.

ghost use Rattle.std.specs.Prelude.{◌≡◌, ◌++◌, ◌∷◌, ◌↔◌, Some, IsTrue, MatchOption};
ghost use Rattle.gs3_rules.specs.Apply.{rule_of};
ghost use Rattle.gs3_rules.specs.Refutes.{premises_of};
ghost use Rattle.gs3_text.specs.Answer.{scan_of};
ghost use Rattle.gs3_text.specs.ProofText.{IsLine, says};
ghost use Rattle.gs3_text.specs.Reading.{Gives};
ghost use Rattle.gs3_text.specs.Scanning.{start, step_scan, next_scan};

use crate::fault::Fault;
use crate::step::step_of;
use containers::Items;
use fol_core::Symbols;
use gs3_rules::{Step, Steps};
use std::alloc::Global;

/// The numbers of the steps' lines.
pub type Lines = Items<u64>;

/// What the lines so far say: how many premises still need a proof, once the heading is there; the steps; and the
/// numbers of their lines.
#[derive(Drop)]
pub(crate) struct Scan {
    pub owed: Option<u64>,
    pub steps: Steps,
    pub lines: Lines,
}

pub(crate) fn new(alloc: Global) -> Scan
    ensures { scan_of result ≡ start }
{
    Scan {
        owed: None,
        steps: Items::new(alloc),
        lines: Items::new(alloc),
    }
}

/// Whether the steps so far are a whole proof.
pub(crate) fn is_whole(scan: &Scan) -> bool
    ensures { IsTrue result ↔ (scan.now.owed ≡ Some 0) }
{
    match scan.owed {
        Some(owed) => owed == 0,
        None => false,
    }
}

/// The first line and what follows its line feed.
#[tactic(auto, using(crate::proofs::Cuts::feed_step, crate::proofs::Cuts::feed_at))]
pub(crate) fn line_at(bytes: &[u8]) -> Option<(&[u8], &[u8])>
    ensures { MatchOption result (IsLine bytes.now)
        (λ x. (bytes.now ≡ x.0.now ++ 10 ∷ x.1.now) × IsLine x.0.now) }
{
    for (i, b) in bytes.iter().enumerate() {
        if *b == b'\n' {
            return Some((&bytes[..i], &bytes[i + 1..]));
        }
    }
    None
}

/// Whether the line does not begin with `%`.
fn says(line: &[u8]) -> bool
    ensures { result ≡ says line.now }
{
    match line {
        [b'%', ..] => false,
        _ => true,
    }
}

fn premises_of(step: &Step) -> u64
    ensures { result ≡ premises_of (rule_of step.now) }
{
    match step {
        Step::Close { .. } | Step::FalseAt { .. } | Step::NotTrue { .. } => 0,
        Step::Alpha { .. } | Step::Delta { .. } | Step::Gamma { .. } => 1,
        Step::Beta { .. } => 2,
    }
}

/// A step's line, where that many other premises need a proof. No proof in which 2 ^ 64 do fits in memory.
fn add_step(
    alloc: Global,
    symbols: &Symbols,
    number: u64,
    line: &[u8],
    others: u64,
    scan: &mut Scan,
) -> Result<(), Fault>
    ensures { Gives (λ _. scan_of scan.new) result
        (step_scan symbols.now.functions number line.now others (scan_of scan.old)) }
{
    let step = step_of(alloc, symbols, line)?;
    let Some(owed) = others.checked_add(premises_of(&step)) else {
        return Err(Fault::OutOfMemory);
    };
    scan.steps.push(step)?;
    scan.lines.push(number)?;
    scan.owed = Some(owed);
    Ok(())
}

/// The next line, which has that number.
#[tactic(auto, unfolding(crate::specs::Scanning::next_scan, crate::specs::Scanning::said_by))]
pub(crate) fn next(
    alloc: Global,
    symbols: &Symbols,
    number: u64,
    line: &[u8],
    scan: &mut Scan,
) -> Result<(), Fault>
    ensures { Gives (λ _. scan_of scan.new) result
        (next_scan symbols.now.functions number line.now (scan_of scan.old)) }
{
    if !says(line) {
        return Ok(());
    }
    let Some(owed) = scan.owed else {
        if line != b"gs3 1".as_slice() {
            return Err(Fault::Malformed);
        }
        scan.owed = Some(1);
        return Ok(());
    };
    if owed == 0 {
        return Err(Fault::Malformed);
    }
    add_step(alloc, symbols, number, line, owed - 1, scan)
}
