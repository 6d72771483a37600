//! The lines of a report.

ghost use Rattle.std.specs.Prelude.{◌≡◌, ◌++◌, ◌∷◌, [], OnOk};
ghost use Rattle.gs3_text.specs.ProofText.{text_of};
ghost use Rattle.goeland_report.specs.Output.{printed_byte, file_text, status_word, status_line};
ghost use Rattle.goeland_report.specs.Output.{engine_line};
ghost use Rattle.goeland_report.specs.Output.{walk_words, reason_words, bench_words, asked_lines};
ghost use Rattle.goeland_report.specs.Asked.{asked_of};

use crate::cause::{BenchResult, Cause};
use crate::found::NodeLines;
use history_text::{OfferSpelling, spell_history};
use offer_text::spell_number;
use std::alloc::AllocError;
use tab_tree::{Engine, OpenAnswer};

/// The byte, or `?` in the place of one that is not printable.
fn printed_byte(byte: u8) -> u8
    ensures { result ≡ printed_byte byte }
{
    if b' ' <= byte && byte <= b'~' {
        byte
    } else {
        b'?'
    }
}

/// Appends a line of these words and the file's name, with `?` in the place of each byte of it that is not printable.
pub(crate) fn append_file_line(
    words: &[u8],
    file: &str,
    out: &mut Vec<u8>,
) -> Result<(), AllocError>
    ensures { OnOk result (out.new.items ≡ out.old.items ++ ((words.now ++ file_text file.now) ++ 10 ∷ [])) }
{
    out.extend_from_slice(words)?;
    for byte in file.as_bytes() {
        out.push(printed_byte(*byte))?;
    }
    out.push(b'\n')?;
    Ok(())
}

/// The status of a proof: a problem with a conjecture is a theorem.
pub(crate) fn status_word(theorem: bool) -> &'static [u8]
    ensures { result.now ≡ status_word theorem }
{
    if theorem {
        b"Theorem"
    } else {
        b"Unsatisfiable"
    }
}

/// Appends the line of the status.
pub(crate) fn append_status(status: &[u8], file: &str, out: &mut Vec<u8>) -> Result<(), AllocError>
    ensures { OnOk result (out.new.items ≡ out.old.items ++ (status_line status.now file.now ++ 10 ∷ [])) }
{
    out.extend_from_slice(b"% SZS status ")?;
    out.extend_from_slice(status)?;
    append_file_line(b" for ", file, out)
}

/// Appends the line of what settled the last round.
pub(crate) fn append_engine(engine: Engine, out: &mut Vec<u8>) -> Result<(), AllocError>
    ensures { OnOk result (out.new.items ≡ out.old.items ++ (engine_line engine ++ 10 ∷ [])) }
{
    match engine {
        Engine::Plain => out.extend_from_slice(b"% engine plain\n"),
        Engine::Agents => out.extend_from_slice(b"% engine agents\n"),
        Engine::Board => out.extend_from_slice(b"% engine board\n"),
    }
}

/// Appends what the walk for an open branch answers.
fn append_walk(answer: OpenAnswer, out: &mut Vec<u8>) -> Result<(), AllocError>
    ensures { OnOk result (out.new.items ≡ out.old.items ++ walk_words answer) }
{
    match answer {
        OpenAnswer::Branch(name) => spell_number(b"open ", name, out),
        OpenAnswer::Conflict => out.extend_from_slice(b"conflict"),
        OpenAnswer::Unsearched => out.extend_from_slice(b"unsearched"),
    }
}

/// Appends why a run gave up.
pub(crate) fn append_reason(cause: Cause, out: &mut Vec<u8>) -> Result<(), AllocError>
    ensures { OnOk result (out.new.items ≡ out.old.items ++ reason_words cause) }
{
    match cause {
        Cause::Depth { limit, answer } => {
            spell_number(b"depth ", limit, out)?;
            out.push(b' ')?;
            append_walk(answer, out)
        }
        Cause::Tries { made, depth } => {
            spell_number(b"tries ", made, out)?;
            spell_number(b" depth ", depth, out)
        }
        Cause::Bytes { limit } => spell_number(b"bytes ", limit, out),
        Cause::Nesting => out.extend_from_slice(b"nesting"),
    }
}

/// Appends how a run on a problem of the bench ended.
pub(crate) fn append_result(ended: BenchResult, out: &mut Vec<u8>) -> Result<(), AllocError>
    ensures { OnOk result (out.new.items ≡ out.old.items ++ bench_words ended) }
{
    match ended {
        BenchResult::Proved { depth, bytes } => {
            out.extend_from_slice(b"status Theorem")?;
            spell_number(b" depth ", depth, out)?;
            spell_number(b" bytes ", bytes, out)
        }
        BenchResult::GaveUp { cause } => {
            out.extend_from_slice(b"reason ")?;
            append_reason(cause, out)
        }
    }
}

/// Appends the lines of the histories, where they are asked for.
pub(crate) fn append_asked<S: OfferSpelling>(
    spelling: &S,
    history: &Option<NodeLines<'_, S::Offer>>,
    out: &mut Vec<u8>,
) -> Result<(), AllocError>
    ensures { OnOk result (out.new.items
        ≡ out.old.items ++ text_of (asked_lines (S.text spelling.now) (asked_of history.now))) }
{
    match history {
        None => Ok(()),
        Some(nodes) => spell_history(spelling, nodes.as_slice(), out),
    }
}
