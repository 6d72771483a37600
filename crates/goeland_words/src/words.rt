//! The words of a command, read whole.

ghost use Rattle.std.specs.Prelude.{◌≡◌, ◌∷◌, codes, IfOk, IfErr, IfSome, IsNone};
ghost use Rattle.goeland_words.specs.Parsed.{AskFor, AskForNothing, AskForProblem, AskForNoProblem};
ghost use Rattle.goeland_words.specs.Words.{IsCommand, IsNoCommand};
ghost use Rattle.gl_outside.specs.Outside.{texts_of};

use crate::command::{BenchTexts, ProveTexts, bench_line, prove_line};
use crate::limits::{
    DEFAULT_DEPTH, DEFAULT_PROOF_BYTES, DEFAULT_WORKERS, MAX_DEPTH, MAX_PROBLEM, MAX_WORKERS,
};
use crate::number::{number_in, number_or};
use crate::prove::ProveWords;
use crate::text::Text;
use crate::values::{file_of, rewrite_of, schedule_of, tries_of};
use gs3_text::MAX_PROOF_BYTES;
use std::alloc::{AllocError, Global};
use thiserror::Error;

/// What the words ask for.
#[derive(Debug, Drop)]
pub enum Command {
    /// To prove a problem.
    Prove(ProveWords),
    /// To make problem `n`, which is from 1 to 100, and to prove it with so many workers.
    Bench { n: u32, workers: u32 },
}

/// Why there is no command.
#[derive(Clone, Copy, Debug, PartialEq, Eq, Error)]
pub enum WordsError {
    /// No command is written so.
    #[error("the words ask for nothing")]
    Usage,
    #[error("out of memory")]
    OutOfMemory,
}

impl From<AllocError> for WordsError {
    ghost use Rattle.std.specs.Prelude.{◌≡◌};
    ghost use Rattle.goeland_words.specs.declared.words.WordsError.TheVariants.{OutOfMemory};

    ghost from_gives = { λ _ e. e ≡ OutOfMemory };

    fn from(_error: AllocError) -> Self {
        WordsError::OutOfMemory
    }
}

/// What `prove` is to do, or `None` where a value has not its form.
fn prove_words(alloc: Global, texts: ProveTexts<'_>) -> Result<Option<ProveWords>, AllocError>
    ensures some { IfOk result (λ r. IfSome r (AskFor texts.entry)) }
    ensures none { IfOk result (λ r. IsNone r → AskForNothing texts.entry) }
{
    if texts.workers.is_some() && texts.schedule.is_some() {
        return Ok(None);
    }
    let Some(depth) = number_or(texts.depth, DEFAULT_DEPTH, 1, MAX_DEPTH) else {
        return Ok(None);
    };
    let Some(workers) = number_or(texts.workers, DEFAULT_WORKERS, 1, MAX_WORKERS) else {
        return Ok(None);
    };
    let Some(tries) = tries_of(texts.tries) else {
        return Ok(None);
    };
    let Some(proof_bytes) = number_or(texts.proof_bytes, DEFAULT_PROOF_BYTES, 1, MAX_PROOF_BYTES)
    else {
        return Ok(None);
    };
    let Some(rewrite) = rewrite_of(texts.rewrite) else {
        return Ok(None);
    };
    let Some(schedule) = schedule_of(texts.schedule) else {
        return Ok(None);
    };
    let Some(name) = file_of(texts.file) else {
        return Ok(None);
    };
    let file = Text::of(alloc, name)?;
    Ok(Some(ProveWords {
        file,
        depth: depth as u32,
        workers: workers as u32,
        tries,
        proof_bytes,
        rewrite,
        history: texts.history,
        schedule,
    }))
}

/// The command of `prove` and these words.
fn read_prove(alloc: Global, words: &[String]) -> Result<Command, WordsError>
    ensures ok { IfOk result (IsCommand (codes "prove" ∷ texts_of words.now)) }
    ensures usage { IfErr result (λ e. e ≡ WordsError.Usage → IsNoCommand (codes "prove" ∷ texts_of words.now)) }
{
    let Some(texts) = prove_line(alloc, words)? else {
        return Err(WordsError::Usage);
    };
    match prove_words(alloc, texts)? {
        Some(asked) => Ok(Command::Prove(asked)),
        None => Err(WordsError::Usage),
    }
}

/// The number of a problem and of workers, or `None` where one has not its form.
fn bench_words(texts: BenchTexts<'_>) -> Option<(u32, u32)>
    ensures some { IfSome result (λ b. AskForProblem texts.entry b.0 b.1) }
    ensures none { IsNone result → AskForNoProblem texts.entry }
{
    let problem = texts.problem?;
    let n = number_in(problem, 1, MAX_PROBLEM)?;
    let workers = number_or(texts.workers, DEFAULT_WORKERS, 1, MAX_WORKERS)?;
    Some((n as u32, workers as u32))
}

/// The command of `bench` and these words.
fn read_bench(alloc: Global, words: &[String]) -> Result<Command, WordsError>
    ensures ok { IfOk result (IsCommand (codes "bench" ∷ texts_of words.now)) }
    ensures usage { IfErr result (λ e. e ≡ WordsError.Usage → IsNoCommand (codes "bench" ∷ texts_of words.now)) }
{
    let Some(texts) = bench_line(alloc, words)? else {
        return Err(WordsError::Usage);
    };
    match bench_words(texts) {
        Some((n, workers)) => Ok(Command::Bench { n, workers }),
        None => Err(WordsError::Usage),
    }
}

/// The command that the words, which follow the program's name, ask for. It is `Usage` only where they ask for none.
pub fn read_words(alloc: Global, words: &[String]) -> Result<Command, WordsError>
    ensures ok { IfOk result (IsCommand (texts_of words.now)) }
    ensures only { IfOk result (λ c. (other : Command) → IsCommand (texts_of words.now) other → other ≡ c) }
    ensures usage { IfErr result (λ e. e ≡ WordsError.Usage → IsNoCommand (texts_of words.now)) }
{
    let [verb, rest @ ..] = words else {
        return Err(WordsError::Usage);
    };
    if verb.as_str() == "prove" {
        return read_prove(alloc, rest);
    }
    if verb.as_str() == "bench" {
        return read_bench(alloc, rest);
    }
    Err(WordsError::Usage)
}
