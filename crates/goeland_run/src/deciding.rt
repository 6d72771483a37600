//! What a run decides.

ghost use Rattle.std.specs.Prelude.{◌≡◌, ℕ, List, IfOk, OnErr};
ghost use Rattle.gl_outside.specs.Outside.{texts_of};
ghost use Rattle.goeland_run.specs.Deciding.{Decides};
ghost use Rattle.goeland_run.specs.declared.ways.Threading.TheVariants as threadings;

use crate::decided::Decided;
use crate::planning::{Plan, plan_words};
use crate::telling::finish;
use crate::ways::Threading;
use deepening::{Way, search, search_alone};
use gl_outside::Shelf;
use pool_run::gate::Gate;
use std::alloc::{AllocError, Global};
use std::sync::Wait;
use std::thread::Threads;

/// What a run with these words decides, on one thread.
pub(crate) fn decide_alone<S: Shelf>(
    alloc: Global,
    words: &[String],
    shelf: &mut S,
) -> Result<Decided, AllocError>
    ensures decides { IfOk result (λ d. Decides threadings.OneThread
        (record { holds = S.holds shelf.old; unread = S.faults shelf.old; unread_after = S.faults shelf.new })
        (texts_of words.now) d) }
    ensures err { OnErr result (S.faults shelf.new ≡ S.faults shelf.old) }
    ensures kept { (other : List ℕ) → S.holds shelf.new other ≡ S.holds shelf.old other }
{
    let job = match plan_words(alloc, words, shelf, Threading::OneThread)? {
        Plan::AtOnce(decided) => return Ok(decided),
        Plan::Search(job) => job,
    };
    let order = match job.way {
        Way::Alone(order) => order,
        Way::Agents(_) => unreachable!(),
    };
    let searched = search_alone(alloc, &job.problem, &job.rules, job.limits, order)?;
    finish(alloc, &job, searched)
}

/// What a run with these words decides, with the threads that they ask for.
pub(crate) fn decide<S: Shelf, G: Gate, R: Threads + Wait + Sync>(
    rt: &R,
    alloc: Global,
    words: &[String],
    shelf: &mut S,
    gate: &G,
) -> Result<Decided, AllocError>
    ensures decides { IfOk result (λ d. Decides threadings.ManyThreads
        (record { holds = S.holds shelf.old; unread = S.faults shelf.old; unread_after = S.faults shelf.new })
        (texts_of words.now) d) }
    ensures err { OnErr result (S.faults shelf.new ≡ S.faults shelf.old) }
    ensures kept { (other : List ℕ) → S.holds shelf.new other ≡ S.holds shelf.old other }
{
    let job = match plan_words(alloc, words, shelf, Threading::ManyThreads)? {
        Plan::AtOnce(decided) => return Ok(decided),
        Plan::Search(job) => job,
    };
    let searched = search(
        rt,
        alloc,
        &job.problem,
        &job.rules,
        job.limits,
        job.way,
        gate,
    )?;
    finish(alloc, &job, searched)
}
