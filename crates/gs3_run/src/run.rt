//! A check: a problem and a proof on the shelf, and the line that says what the proof is.

ghost use Rattle.std.specs.Prelude.{◌≡◌, ◌≢◌, ◌≤◌, ℕ, List, ◌++◌, ◌∷◌, [], Some, length, decimal};
ghost use Rattle.std.specs.Prelude.{IfOk, IfErr, OnErr, MatchOption};
ghost use Rattle.fol_core.specs.View.{formulas_of};
ghost use Rattle.fof_parse.specs.Problem.{PlainProblem, Start};
ghost use Rattle.fof_parse.specs.ProblemView.{plain_problem};
ghost use Rattle.fof_parse.specs.Refused.{Refuses};
ghost use Rattle.fof_parse.specs.TheProblem.{most_bytes, IsNoProblem};
ghost use Rattle.gl_outside.specs.Outside.{texts_of};
ghost use Rattle.gs3_run.specs.Run.{AreNames, AreNoNames, HaveNames, output_of, status_of};
ghost use Rattle.gs3_run.specs.Run.{WasRead, Judges, RefusesText, FitsProof, FitsBoth, Fits, Prints, Ran};
ghost use Rattle.gs3_rules.specs.Apply.{rules_of};
ghost use Rattle.gs3_text.specs.Answer.{IsRefused};
ghost use Rattle.gs3_text.specs.ProofText.{text_of, IsReading};

use fof_parse::{MAX_BYTES, Problem, ReadError, into_start_list, read_problem, refusal_line};
use fol_core::{Formulas, Symbols};
use gl_outside::{FetchError, Shelf, Sink, SinkFailed};
use gs3_kernel::{CheckError, check_steps};
use gs3_text::{MAX_PROOF_BYTES, ReadTree, TextError, read_tree};
use itoa::Buffer;
use std::alloc::{AllocError, Global};

/// How a check ended.
#[derive(Clone, Copy, Debug, PartialEq, Eq)]
pub enum CheckStatus {
    /// The text is a proof of the problem.
    Valid,
    /// The text is no proof text, or a step of the proof goes wrong.
    Invalid,
    /// The words are not the names of a problem and a proof.
    Usage,
    /// The problem's text is refused, or the proof is too large.
    Refused,
    /// The problem or the proof could not be read.
    ReadFault,
    /// The output could not be written whole.
    WriteFault,
    OutOfMemory,
}

/// What a check has to print.
#[derive(Drop)]
pub(crate) enum Report {
    Usage,
    TooLarge,
    /// The line that says why and where the problem's text is refused.
    Refused(Vec<u8>),
    TooLargeProof,
    ReadFault,
    Valid,
    /// The line that says where the proof is malformed or wrong.
    Invalid(Vec<u8>),
}

/// A line of these words and this number.
fn numbered(alloc: Global, words: &[u8], number: u64) -> Result<Vec<u8>, AllocError>
    ensures { IfOk result (λ v. v.items ≡ text_of ((words.now ++ decimal number) ∷ [])) }
{
    let mut text = Vec::from_slice(alloc, words)?;
    let mut buffer = Buffer::new();
    text.extend_from_slice(buffer.format(number).as_bytes())?;
    text.push(b'\n')?;
    Ok(text)
}

/// The proof of which the bytes are a text. The bytes are given up.
fn read_text(alloc: Global, symbols: &Symbols, bytes: Vec<u8>) -> Result<ReadTree, TextError>
    ensures read { IfOk result (λ r. IsReading symbols.now.functions bytes.items (rules_of r.tree) r.lines) }
    ensures refused { IfErr result (IsRefused symbols.now.functions bytes.items) }
{
    read_tree(alloc, symbols, bytes.as_slice())
}

/// The report of a text that is no proof text.
fn malformed(alloc: Global, error: TextError) -> Result<Report, AllocError>
    ensures { IfOk result (λ r. (problem : PlainProblem) (bytes : List ℕ)
        → IsRefused problem.symbols.functions bytes error → Judges problem bytes r) }
{
    match error {
        TextError::Malformed { line } => {
            Ok(Report::Invalid(numbered(alloc, b"% gs3check Malformed ", line)?))
        }
        TextError::OutOfMemory => Err(AllocError),
    }
}

/// The start list of a problem, made of the problem's own formulas.
fn start_of(alloc: Global, problem: Problem) -> Result<Formulas, AllocError>
    ensures { IfOk result (λ fs. formulas_of fs ≡ Start (plain_problem problem)) }
{
    let (_, start) = into_start_list(alloc, problem)?;
    Ok(start)
}

/// The report of a proof that was read, for a problem with this start list.
fn judge_steps(alloc: Global, start: Formulas, read: &ReadTree) -> Result<Report, AllocError>
    requires { WasRead (rules_of read.now.tree) read.now.lines }
    ensures { IfOk result (λ r. (problem : PlainProblem) (bytes : List ℕ) → Start problem ≡ formulas_of start
        → IsReading problem.symbols.functions bytes (rules_of read.now.tree) read.now.lines
        → Judges problem bytes r) }
{
    match check_steps(alloc, start, read.tree.steps()) {
        Ok(()) => Ok(Report::Valid),
        Err(CheckError::Wrong { step }) => {
            let line = read.lines.as_slice()[step as usize];
            Ok(Report::Invalid(numbered(alloc, b"% gs3check Wrong ", line)?))
        }
        Err(CheckError::OutOfMemory) => Err(AllocError),
    }
}

/// The report of a text that is to be a proof of the problem. The text is given up before its steps are checked.
fn judge(alloc: Global, problem: Problem, bytes: Vec<u8>) -> Result<Report, AllocError>
    ensures { IfOk result (Judges (plain_problem problem) bytes.items) }
{
    let read = match read_text(alloc, &problem.symbols, bytes) {
        Ok(read) => read,
        Err(error) => return malformed(alloc, error),
    };
    let start = start_of(alloc, problem)?;
    judge_steps(alloc, start, &read)
}

/// The report of the proof on the shelf under a name, for a problem that was read.
fn report_proof<S: Shelf>(
    alloc: Global,
    problem: Problem,
    name: &str,
    shelf: &mut S,
) -> Result<Report, AllocError>
    ensures fits { IfOk result (FitsProof (plain_problem problem) (S.holds shelf.old name.now)
        (S.faults shelf.old) (S.faults shelf.new)) }
    ensures err { OnErr result (S.faults shelf.new ≡ S.faults shelf.old) }
    ensures kept { (other : List ℕ) → S.holds shelf.new other ≡ S.holds shelf.old other }
{
    match shelf.fetch(alloc, name, MAX_PROOF_BYTES) {
        Ok(bytes) => judge(alloc, problem, bytes),
        Err(FetchError::Failed) => Ok(Report::ReadFault),
        Err(FetchError::TooLong) => Ok(Report::TooLargeProof),
        Err(FetchError::OutOfMemory) => Err(AllocError),
    }
}

/// The report of the text of a problem that is refused.
fn refused(alloc: Global, error: ReadError) -> Result<Report, AllocError>
    ensures { IfOk result (λ r. (bytes : List ℕ) → Refuses bytes error
        → (error ≢ ReadError.OutOfMemory → IsNoProblem bytes) → RefusesText bytes r) }
{
    match error {
        ReadError::TooLarge => Ok(Report::TooLarge),
        ReadError::Lex { offset } => Ok(Report::Refused(refusal_line(alloc, "Lex", offset)?)),
        ReadError::Bad { offset, kind } => {
            Ok(Report::Refused(refusal_line(alloc, kind.word(), offset)?))
        }
        ReadError::OutOfMemory => Err(AllocError),
    }
}

/// The report of the text of a problem, and of the proof on the shelf under a name.
fn report_text<S: Shelf>(
    alloc: Global,
    bytes: &[u8],
    proof: &str,
    shelf: &mut S,
) -> Result<Report, AllocError>
    requires { length bytes.now ≤ most_bytes }
    ensures fits { IfOk result (FitsBoth (Some bytes.now) (S.holds shelf.old proof.now)
        (S.faults shelf.old) (S.faults shelf.new)) }
    ensures err { OnErr result (S.faults shelf.new ≡ S.faults shelf.old) }
    ensures kept { (other : List ℕ) → S.holds shelf.new other ≡ S.holds shelf.old other }
{
    match read_problem(alloc, bytes) {
        Ok(problem) => report_proof(alloc, problem, proof, shelf),
        Err(error) => refused(alloc, error),
    }
}

/// The report of the problem and the proof on the shelf under these names.
fn report_both<S: Shelf>(
    alloc: Global,
    problem: &str,
    proof: &str,
    shelf: &mut S,
) -> Result<Report, AllocError>
    ensures fits { IfOk result (FitsBoth (S.holds shelf.old problem.now) (S.holds shelf.old proof.now)
        (S.faults shelf.old) (S.faults shelf.new)) }
    ensures err { OnErr result (S.faults shelf.new ≡ S.faults shelf.old) }
    ensures kept { (other : List ℕ) → S.holds shelf.new other ≡ S.holds shelf.old other }
{
    match shelf.fetch(alloc, problem, MAX_BYTES as u64) {
        Ok(bytes) => report_text(alloc, &bytes, proof, shelf),
        Err(FetchError::Failed) => Ok(Report::ReadFault),
        Err(FetchError::TooLong) => Ok(Report::TooLarge),
        Err(FetchError::OutOfMemory) => Err(AllocError),
    }
}

/// The names of the problem and of the proof.
fn names_of(words: &[String]) -> Option<(&str, &str)>
    ensures { MatchOption result (AreNoNames (texts_of words.now))
        (λ n. AreNames (texts_of words.now) n.0.now n.1.now) }
{
    let [problem, proof] = words else {
        return None;
    };
    let (problem, proof) = (problem.as_str(), proof.as_str());
    if problem.is_empty() || proof.is_empty() {
        return None;
    }
    if problem == "-" && proof == "-" {
        return None;
    }
    Some((problem, proof))
}

/// The report of a check.
fn decide<S: Shelf>(alloc: Global, words: &[String], shelf: &mut S) -> Result<Report, AllocError>
    ensures fits { IfOk result (Fits (texts_of words.now) (S.holds shelf.old)
        (S.faults shelf.old) (S.faults shelf.new)) }
    ensures err { OnErr result ((S.faults shelf.new ≡ S.faults shelf.old) × HaveNames (texts_of words.now)) }
    ensures kept { (other : List ℕ) → S.holds shelf.new other ≡ S.holds shelf.old other }
{
    match names_of(words) {
        Some((problem, proof)) => report_both(alloc, problem, proof, shelf),
        None => Ok(Report::Usage),
    }
}

/// What is printed. It takes no memory.
fn line_of(report: &Report) -> &[u8]
    ensures { result.now ≡ output_of report.now }
{
    match report {
        Report::Usage => b"% usage: gs3check PROBLEM PROOF\n",
        Report::TooLarge => b"% refused TooLarge\n",
        Report::Refused(text) => text.as_slice(),
        Report::TooLargeProof => b"% refused TooLarge proof\n",
        Report::ReadFault => b"% read fault\n",
        Report::Valid => b"% gs3check Valid\n",
        Report::Invalid(text) => text.as_slice(),
    }
}

fn end_of(report: &Report) -> CheckStatus
    ensures { result ≡ status_of report.now }
{
    match report {
        Report::Usage => CheckStatus::Usage,
        Report::TooLarge | Report::Refused(_) | Report::TooLargeProof => { CheckStatus::Refused }
        Report::ReadFault => CheckStatus::ReadFault,
        Report::Valid => CheckStatus::Valid,
        Report::Invalid(_) => CheckStatus::Invalid,
    }
}

fn tell<K: Sink>(out: &mut K, report: &Report) -> CheckStatus
    ensures { Prints report.now (K.written out.old) (K.written out.new) (K.faults out.old) (K.faults out.new) result }
{
    match out.put(line_of(report)) {
        Ok(()) => end_of(report),
        Err(SinkFailed) => CheckStatus::WriteFault,
    }
}

/// Checks a proof of a problem: the words are the names of both on the shelf, neither of them empty, and `-` at most
/// once.
///
/// The problem is read first, and refused before the proof is fetched; the proof is then checked for its text, and at
/// last step by step. One line is written by one put, and says what the proof is. A read fault is the answer exactly
/// where the shelf's count of faults rose. After want of memory nothing was written. The shelf holds what it held.
pub fn check_run<S: Shelf, K: Sink>(
    alloc: Global,
    words: &[String],
    shelf: &mut S,
    out: &mut K,
) -> CheckStatus
    ensures ran { Ran (texts_of words.now) (S.holds shelf.old) (S.faults shelf.old) (S.faults shelf.new)
        (K.written out.old) (K.written out.new) (K.faults out.old) (K.faults out.new) result }
    ensures kept { (other : List ℕ) → S.holds shelf.new other ≡ S.holds shelf.old other }
{
    match decide(alloc, words, shelf) {
        Ok(report) => tell(out, &report),
        Err(AllocError) => CheckStatus::OutOfMemory,
    }
}
