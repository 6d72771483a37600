//! What a run has to do, from its words and the bytes that they name.

ghost use Rattle.std.specs.Prelude.{◌≡◌, ◌≤◌, ℕ, List, None, IfOk, OnErr};
ghost use Rattle.gl_outside.specs.Outside.{texts_of};
ghost use Rattle.fof_parse.specs.Lines.{refusal_line};
ghost use Rattle.deepening.specs.RoundEnds.{AreLimits};
ghost use Rattle.goeland_run.specs.PrintedText.{printed_text};
ghost use Rattle.goeland_run.specs.Benching.{Benches};
ghost use Rattle.goeland_run.specs.Deciding.{Decides, DecidesFile, DecidesText, DecidesRefusal, DecidesUsage};
ghost use Rattle.goeland_run.specs.Jobs.{IsJob, IsSearch, Finishes, PlansTo};
ghost use Rattle.goeland_run.specs.Searched.{limits_of, way_of, way_asked};
ghost use Rattle.goeland_run.specs.declared.job.Telling.TheVariants as tellings;

use crate::decided::{Decided, at_once};
use crate::job::{Job, Telling};
use crate::limits::{bench_limits, limits_of};
use crate::printed::Printed;
use crate::status::Status;
use crate::ways::{Threading, way_of};
use containers::Shared;
use fof_gen::make_problem;
use fof_parse::{MAX_BYTES, Problem, ReadError, read_problem, refusal_line};
use gl_outside::{FetchError, Shelf};
use goeland_report::Report;
use goeland_words::{Command, ProveWords, WordsError, read_words};
use rewrite_rules::rules_of;
use std::alloc::{AllocError, Global};

/// What a run has to do.
#[derive(Drop)]
pub(crate) enum Plan {
    /// Nothing but to print that.
    AtOnce(Decided),
    /// This search.
    Search(Job),
}

/// The line of a text that is refused for the reason of that word.
fn refusal(alloc: Global, word: &str, offset: u64) -> Result<Printed, AllocError>
    ensures { IfOk result (λ p. printed_text p ≡ refusal_line word.now offset) }
{
    Ok(Printed::Made(Report {
        first: refusal_line(alloc, word, offset)?,
        second: Vec::new(alloc),
    }))
}

/// The answer to a text that is refused.
fn refused(alloc: Global, error: ReadError) -> Result<Decided, AllocError>
    ensures { IfOk result (λ d. DecidesRefusal error d) }
{
    let printed = match error {
        ReadError::TooLarge => Printed::TooLarge,
        ReadError::Lex { offset } => refusal(alloc, "Lex", offset)?,
        ReadError::Bad { offset, kind } => refusal(alloc, kind.word(), offset)?,
        ReadError::OutOfMemory => return Err(AllocError),
    };
    Ok(at_once(alloc, printed, Status::Refused))
}

/// The search of the problem, as the words ask for it.
fn prove_job(
    alloc: Global,
    asked: ProveWords,
    problem: Problem,
    threads: Threading,
) -> Result<Job, AllocError>
    requires { AreLimits (limits_of asked) }
    ensures job { IfOk result (λ job. IsJob threads job) }
    ensures same { IfOk result (λ job. (job.telling ≡ tellings.Outcome asked) × (job.problem ≡ problem)
        × (job.way ≡ way_asked threads asked)) }
{
    let rules = rules_of(alloc, &problem, asked.rewrite)?;
    Ok(Job {
        problem: Shared::new(alloc, problem)?,
        rules: Shared::new(alloc, rules)?,
        limits: limits_of(&asked),
        way: way_of(threads, asked.workers, asked.schedule),
        telling: Telling::Outcome(asked),
    })
}

/// What there is to do with a text.
fn plan_text(
    alloc: Global,
    asked: ProveWords,
    bytes: &[u8],
    threads: Threading,
) -> Result<Plan, AllocError>
    requires { AreLimits (limits_of asked) }
    ensures { IfOk result (λ plan. PlansTo threads (DecidesText (way_asked threads asked) asked bytes.now) plan) }
{
    match read_problem(alloc, bytes) {
        Ok(problem) => {
            let job = prove_job(alloc, asked, problem, threads)?;
            Ok(Plan::Search(job))
        }
        Err(error) => {
            let decided = refused(alloc, error)?;
            Ok(Plan::AtOnce(decided))
        }
    }
}

/// What there is to do with the file that the words name.
fn plan_file<S: Shelf>(
    alloc: Global,
    asked: ProveWords,
    shelf: &mut S,
    threads: Threading,
) -> Result<Plan, AllocError>
    requires { AreLimits (limits_of asked) }
    ensures plan { IfOk result (λ plan. PlansTo threads (DecidesFile (way_asked threads asked)
        (record { holds = S.holds shelf.old; unread = S.faults shelf.old; unread_after = S.faults shelf.new }) asked)
        plan) }
    ensures read { IfOk result (λ plan. IsSearch plan → S.faults shelf.new ≡ S.faults shelf.old) }
    ensures err { OnErr result (S.faults shelf.new ≡ S.faults shelf.old) }
    ensures kept { (other : List ℕ) → S.holds shelf.new other ≡ S.holds shelf.old other }
{
    match shelf.fetch(alloc, asked.file.as_str(), MAX_BYTES as u64) {
        Ok(bytes) => plan_text(alloc, asked, bytes.as_slice(), threads),
        Err(FetchError::Failed) => Ok(Plan::AtOnce(at_once(
            alloc,
            Printed::ReadFault,
            Status::ReadFault,
        ))),
        Err(FetchError::TooLong) => Ok(Plan::AtOnce(at_once(
            alloc,
            Printed::TooLarge,
            Status::Refused,
        ))),
        Err(FetchError::OutOfMemory) => Err(AllocError),
    }
}

/// The search of problem `n`. A text of the bench is a problem; if it were none, that would be told as want of memory.
fn bench_job(alloc: Global, n: u32, workers: u32, threads: Threading) -> Result<Job, AllocError>
    requires { (1 ≤ n) × (n ≤ 100) }
    ensures job { IfOk result (λ job. IsJob threads job) }
    ensures decides { IfOk result
        (λ job. (d : Decided) → Finishes job d → Benches (way_of threads workers None) n d) }
{
    let text = make_problem(alloc, n)?;
    let Ok(problem) = read_problem(alloc, text.as_slice()) else {
        return Err(AllocError);
    };
    let rules = rules_of(alloc, &problem, true)?;
    Ok(Job {
        problem: Shared::new(alloc, problem)?,
        rules: Shared::new(alloc, rules)?,
        limits: bench_limits(),
        way: way_of(threads, workers, None),
        telling: Telling::Line {
            n,
            bytes: text.len() as u64,
        },
    })
}

/// The answer to words that are no command.
fn usage(alloc: Global) -> Decided
    ensures { DecidesUsage result }
{
    at_once(alloc, Printed::Usage, Status::Usage)
}

/// What there is to do with these words.
pub(crate) fn plan_words<S: Shelf>(
    alloc: Global,
    words: &[String],
    shelf: &mut S,
    threads: Threading,
) -> Result<Plan, AllocError>
    ensures plan { IfOk result (λ plan. PlansTo threads (Decides threads
        (record { holds = S.holds shelf.old; unread = S.faults shelf.old; unread_after = S.faults shelf.new })
        (texts_of words.now)) plan) }
    ensures read { IfOk result (λ plan. IsSearch plan → S.faults shelf.new ≡ S.faults shelf.old) }
    ensures err { OnErr result (S.faults shelf.new ≡ S.faults shelf.old) }
    ensures kept { (other : List ℕ) → S.holds shelf.new other ≡ S.holds shelf.old other }
{
    match read_words(alloc, words) {
        Ok(Command::Prove(asked)) => plan_file(alloc, asked, shelf, threads),
        Ok(Command::Bench { n, workers }) => {
            let job = bench_job(alloc, n, workers, threads)?;
            Ok(Plan::Search(job))
        }
        Err(WordsError::Usage) => Ok(Plan::AtOnce(usage(alloc))),
        Err(WordsError::OutOfMemory) => Err(AllocError),
    }
}
