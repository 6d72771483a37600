//! What is told of a search.

ghost use Rattle.std.specs.Prelude.{◌≡◌, true, IfOk};
ghost use Rattle.fof_parse.specs.ProblemView.{plain_problem};
ghost use Rattle.rewrite_rules.specs.Rules.{RulesOf};
ghost use Rattle.rewrite_rules.specs.RuleView.{rules_in};
ghost use Rattle.deepening.specs.Endings.{EndsSo};
ghost use Rattle.goeland_run.specs.Benching.{BenchesProblem, result_of};
ghost use Rattle.goeland_run.specs.Jobs.{IsFor, Finishes};
ghost use Rattle.goeland_run.specs.Run.{status_of_bench};
ghost use Rattle.goeland_run.specs.Telling.{FindsOut, TellsOutcome};
ghost use Rattle.goeland_run.specs.Searched.{limits_of, bench_limits, HasSteps, HasCause};

use crate::answers::{Answer, answer_of};
use crate::decided::Decided;
use crate::histories::{asked_lines, engine_of};
use crate::job::{Job, Telling};
use crate::printed::Printed;
use crate::status::Status;
use deepening::{Kept, Searched};
use goeland_report::{
    BenchResult, Cause, Found, Reason, bench_report, gave_up_report, proof_report,
};
use goeland_words::ProveWords;
use gs3_text::{Tree, write_tree};
use round_text::RoundSpelling;
use std::alloc::{AllocError, Global};

/// How a run on a problem of so many bytes ended, with a proof at that depth if it has one.
fn result_of(answer: &Answer, depth: u32, bytes: u64) -> BenchResult
    ensures { result ≡ result_of answer.now depth bytes }
{
    match answer {
        Answer::Steps(_) => BenchResult::Proved { depth, bytes },
        Answer::GaveUp(cause) => BenchResult::GaveUp { cause: *cause },
    }
}

/// The status of a run that ended so.
fn status_of(ended: BenchResult) -> Status
    ensures { result ≡ status_of_bench ended }
{
    match ended {
        BenchResult::Proved { .. } => Status::Proved,
        BenchResult::GaveUp { .. } => Status::GaveUp,
    }
}

/// What is printed of a proof with these steps.
fn told_proof(
    alloc: Global,
    job: &Job,
    asked: &ProveWords,
    kept: &Kept,
    steps: &Tree,
) -> Result<Printed, AllocError>
    requires { HasSteps job.now.way asked.now (plain_problem job.now.problem) kept.now steps.now }
    ensures { IfOk result (λ p.
        TellsOutcome job.now.way asked.now (plain_problem job.now.problem) kept.now p Status.Proved) }
{
    let problem = job.problem.get();
    let text = write_tree(alloc, &problem.symbols, steps)?;
    let history = asked_lines(alloc, asked.history, kept)?;
    let found = Found {
        theorem: problem.conjecture.is_some(),
        depth: kept.depth,
        engine: engine_of(kept),
        history,
        text,
    };
    let spelling = RoundSpelling::new(&problem.symbols);
    let report = proof_report(alloc, &spelling, asked.file.as_str(), found)?;
    Ok(Printed::Made(report))
}

/// What is printed of a search that was given up for that cause.
fn told_cause(
    alloc: Global,
    job: &Job,
    asked: &ProveWords,
    kept: &Kept,
    cause: Cause,
) -> Result<Printed, AllocError>
    requires { HasCause job.now.way asked.now (plain_problem job.now.problem) kept.now cause }
    ensures { IfOk result (λ p.
        TellsOutcome job.now.way asked.now (plain_problem job.now.problem) kept.now p Status.GaveUp) }
{
    let why = Reason {
        cause,
        engine: engine_of(kept),
        history: asked_lines(alloc, asked.history, kept)?,
    };
    let spelling = RoundSpelling::new(&job.problem.get().symbols);
    let report = gave_up_report(alloc, &spelling, asked.file.as_str(), &why)?;
    Ok(Printed::Made(report))
}

/// What is printed of what a search comes to, and how the run ends.
fn told(
    alloc: Global,
    job: &Job,
    asked: &ProveWords,
    kept: &Kept,
    answer: &Answer,
) -> Result<(Printed, Status), AllocError>
    requires { FindsOut job.now.way asked.now (plain_problem job.now.problem) kept.now answer.now }
    ensures { IfOk result (λ two.
        TellsOutcome job.now.way asked.now (plain_problem job.now.problem) kept.now two.0 two.1) }
{
    match answer {
        Answer::Steps(steps) => {
            let printed = told_proof(alloc, job, asked, kept, steps)?;
            Ok((printed, Status::Proved))
        }
        Answer::GaveUp(cause) => {
            let printed = told_cause(alloc, job, asked, kept, *cause)?;
            Ok((printed, Status::GaveUp))
        }
    }
}

/// What is told of a search that the words of `prove` ask for.
fn tell_outcome(
    alloc: Global,
    job: &Job,
    asked: &ProveWords,
    searched: Searched,
) -> Result<Decided, AllocError>
    requires rules { RulesOf asked.now.rewrite (plain_problem job.now.problem).axioms (rules_in job.now.rules) }
    requires limits { job.now.limits ≡ limits_of asked.now }
    requires ends { EndsSo (plain_problem job.now.problem) (rules_in job.now.rules) job.now.limits job.now.way
        searched.kept searched.ending }
    ensures { IfOk result (λ d.
        TellsOutcome job.now.way asked.now (plain_problem job.now.problem) d.kept d.printed d.status) }
{
    let Searched { ending, kept } = searched;
    let answer = answer_of(ending, job.limits, kept.depth);
    let (printed, status) = told(alloc, job, asked, &kept, &answer)?;
    Ok(Decided {
        printed,
        status,
        kept,
    })
}

/// What is told of a search of the bench.
fn tell_line(
    alloc: Global,
    job: &Job,
    n: u32,
    bytes: u64,
    searched: Searched,
) -> Result<Decided, AllocError>
    requires rules { RulesOf true (plain_problem job.now.problem).axioms (rules_in job.now.rules) }
    requires limits { job.now.limits ≡ bench_limits }
    requires ends { EndsSo (plain_problem job.now.problem) (rules_in job.now.rules) job.now.limits job.now.way
        searched.kept searched.ending }
    ensures { IfOk result (λ d. BenchesProblem job.now.way n bytes (plain_problem job.now.problem) d) }
{
    let Searched { ending, kept } = searched;
    let answer = answer_of(ending, job.limits, kept.depth);
    let ended = result_of(&answer, kept.depth, bytes);
    let report = bench_report(alloc, n, ended)?;
    Ok(Decided {
        printed: Printed::Made(report),
        status: status_of(ended),
        kept,
    })
}

/// What is told of the job's search.
pub(crate) fn finish(alloc: Global, job: &Job, searched: Searched) -> Result<Decided, AllocError>
    requires serves { IsFor job.now.telling (plain_problem job.now.problem) (rules_in job.now.rules) job.now.limits }
    requires ends { EndsSo (plain_problem job.now.problem) (rules_in job.now.rules) job.now.limits job.now.way
        searched.kept searched.ending }
    ensures { IfOk result (λ d. Finishes job.now d) }
{
    match &job.telling {
        Telling::Outcome(asked) => tell_outcome(alloc, job, asked, searched),
        Telling::Line { n, bytes } => tell_line(alloc, job, *n, *bytes, searched),
    }
}
