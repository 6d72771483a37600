//! A run, from its words to what is printed.

ghost use Rattle.std.specs.Prelude.{◌≡◌, ℕ, List, OnOk, OnErr};
ghost use Rattle.gl_outside.specs.Outside.{HasRisen, Appends, AppendsFront, texts_of};
ghost use Rattle.goeland_run.specs.Outside.{Prints};
ghost use Rattle.goeland_run.specs.PrintedText.{printed_text};
ghost use Rattle.deepening.specs.Kept.{IsEmpty};
ghost use Rattle.goeland_run.specs.Deciding.{EndsRun};
ghost use Rattle.goeland_run.specs.Run.{Ran};
ghost use Rattle.goeland_run.specs.declared.ways.Threading.TheVariants as threadings;

use crate::decided::Decided;
use crate::deciding::{decide, decide_alone};
use crate::printed::{Printed, first_text, second_text};
use crate::status::Status;
use deepening::Kept;
use gl_outside::{Shelf, Sink, SinkFailed};
use pool_run::gate::Gate;
use std::alloc::{AllocError, Global};
use std::sync::Wait;
use std::thread::Threads;

/// Prints a text: a proof by two puts, every other text by one.
fn put_printed<K: Sink>(out: &mut K, printed: &Printed) -> Result<(), SinkFailed>
    ensures ok { OnOk result
        (Appends (K.written out.old) (printed_text printed.now) (K.written out.new)) }
    ensures no_fault { OnOk result (K.faults out.new ≡ K.faults out.old) }
    ensures err { OnErr result
        (AppendsFront (K.written out.old) (printed_text printed.now) (K.written out.new)) }
    ensures failed { OnErr result (HasRisen (K.faults out.old) (K.faults out.new)) }
{
    out.put(first_text(printed))?;
    let second = second_text(printed);
    if second.is_empty() {
        return Ok(());
    }
    out.put(second)
}

/// Prints a text, after which the run ends so.
fn tell<K: Sink>(out: &mut K, printed: &Printed, end: Status) -> Status
    ensures { Prints (record {
      written = K.written out.old;
      written_after = K.written out.new;
      unwritten = K.faults out.old;
      unwritten_after = K.faults out.new;
    }) (printed_text printed.now) end result }
{
    match put_printed(out, printed) {
        Ok(()) => end,
        Err(SinkFailed) => Status::WriteFault,
    }
}

/// Ends a run that decided so: keeps its last round, and prints.
fn end_run<K: Sink>(decided: Result<Decided, AllocError>, out: &mut K, kept: &mut Kept) -> Status
    requires { IsEmpty kept.old }
    ensures { EndsRun (record {
      written = K.written out.old;
      written_after = K.written out.new;
      unwritten = K.faults out.old;
      unwritten_after = K.faults out.new;
    }) kept.new result decided }
{
    match decided {
        Ok(
            Decided {
                printed,
                status,
                kept: last,
            },
        ) => {
            *kept = last;
            tell(out, &printed, status)
        }
        Err(AllocError) => Status::OutOfMemory,
    }
}

/// Does what the words ask for, on one thread: proves the problem of a file of the shelf, or one of the bench. It waits
/// for nobody.
///
/// The status is `Proved` exactly where some tableau up to the limit of depth has a closing substitution, unless a
/// limit, a fault or want of memory ends the run. What is printed then is a GS3 refutation of the axioms and the
/// negated conjecture. The last round is kept in `kept`, also where the output could not be written; after want of
/// memory nothing was written or kept. The shelf holds what it held.
pub fn run_alone<S: Shelf, K: Sink>(
    alloc: Global,
    words: &[String],
    shelf: &mut S,
    out: &mut K,
    kept: &mut Kept,
) -> Status
    ensures ran { Ran threadings.OneThread (texts_of words.now)
        (record { holds = S.holds shelf.old; unread = S.faults shelf.old; unread_after = S.faults shelf.new })
        (record {
          written = K.written out.old;
          written_after = K.written out.new;
          unwritten = K.faults out.old;
          unwritten_after = K.faults out.new;
        })
        kept.new result }
    ensures same_shelf { (other : List ℕ) → S.holds shelf.new other ≡ S.holds shelf.old other }
{
    *kept = Kept::new(alloc);
    let decided = decide_alone(alloc, words, shelf);
    end_run(decided, out, kept)
}

/// Does what the words ask for, with as many workers as they ask for, each in a thread of its own where one can be
/// made. The gate is called before each visit that a worker makes.
///
/// All that `run_alone` says holds here, whatever the number of workers is and in whatever order they come, if the call
/// returns: the workers wait for one another.
pub fn run<S: Shelf, K: Sink, G: Gate, R: Threads + Wait + Sync>(
    rt: &R,
    alloc: Global,
    words: &[String],
    shelf: &mut S,
    out: &mut K,
    gate: &G,
    kept: &mut Kept,
) -> Status
    ensures ran { Ran threadings.ManyThreads (texts_of words.now)
        (record { holds = S.holds shelf.old; unread = S.faults shelf.old; unread_after = S.faults shelf.new })
        (record {
          written = K.written out.old;
          written_after = K.written out.new;
          unwritten = K.faults out.old;
          unwritten_after = K.faults out.new;
        })
        kept.new result }
    ensures same_shelf { (other : List ℕ) → S.holds shelf.new other ≡ S.holds shelf.old other }
{
    *kept = Kept::new(alloc);
    let decided = decide(rt, alloc, words, shelf, gate);
    end_run(decided, out, kept)
}
