//! The three reports.

ghost use Rattle.std.specs.Prelude.{◌≡◌, ◌∷◌, [], ◌++◌, List, IfOk};
ghost use Rattle.fol_core.specs.Symbol.{Symbol};
ghost use Rattle.gs3_rules.specs.Refutes.{ProofTree};
ghost use Rattle.gs3_text.specs.ProofText.{text_of, ProofText};
ghost use Rattle.goeland_report.specs.Outcome.{give_up, proof, bench};
ghost use Rattle.goeland_report.specs.Output.{head_lines, bench_line};
ghost use Rattle.goeland_report.specs.Reported.{proof_of, give_up_of, IsReport};

use crate::cause::BenchResult;
use crate::found::{Found, Reason, Report};
use crate::lines::{
    append_asked, append_engine, append_file_line, append_reason, append_result, append_status,
    status_word,
};
use history_text::OfferSpelling;
use offer_text::spell_number;
use std::alloc::{AllocError, Global};

/// The lines before a proof.
fn head_of<S: OfferSpelling>(
    alloc: Global,
    spelling: &S,
    file: &str,
    found: &Found<'_, S::Offer>,
) -> Result<Vec<u8>, AllocError>
    ensures { IfOk result (λ v. v.items ≡ text_of (head_lines (S.text spelling.now) file.now (proof_of found.now))) }
{
    let mut out = Vec::new(alloc);
    append_status(status_word(found.theorem), file, &mut out)?;
    spell_number(b"% depth ", found.depth, &mut out)?;
    out.push(b'\n')?;
    append_engine(found.engine, &mut out)?;
    append_asked(spelling, &found.history, &mut out)?;
    append_file_line(b"% SZS output start Proof for ", file, &mut out)?;
    Ok(out)
}

/// The report of a proof, for a problem in the file of that name: the lines before it, and then the proof's own text
/// with the line behind it.
pub fn proof_report<S: OfferSpelling>(
    alloc: Global,
    spelling: &S,
    file: &str,
    found: Found<'_, S::Offer>,
) -> Result<Report, AllocError>
    ensures report { IfOk result (IsReport (S.text spelling.now) file.now (proof (proof_of found.entry))) }
    // The whole is a proof text of each tree of which the given one is a text.
    ensures of_tree { IfOk result (λ r. (functions : List Symbol) (tree : ProofTree)
        → ProofText functions found.entry.text.items tree
        → ProofText functions (r.first.items ++ r.second.items) tree) }
{
    let first = head_of(alloc, spelling, file, &found)?;
    let Found {
        text: mut second,
        ..
    } = found;
    append_file_line(b"% SZS output end Proof for ", file, &mut second)?;
    Ok(Report { first, second })
}

/// The report of a run that gave up, on a problem in the file of that name.
pub fn gave_up_report<S: OfferSpelling>(
    alloc: Global,
    spelling: &S,
    file: &str,
    why: &Reason<'_, S::Offer>,
) -> Result<Report, AllocError>
    ensures { IfOk result (IsReport (S.text spelling.now) file.now (give_up (give_up_of why.now))) }
{
    let mut first = Vec::new(alloc);
    append_status(b"GaveUp", file, &mut first)?;
    first.extend_from_slice(b"% reason ")?;
    append_reason(why.cause, &mut first)?;
    first.push(b'\n')?;
    append_engine(why.engine, &mut first)?;
    append_asked(spelling, &why.history, &mut first)?;
    Ok(Report {
        first,
        second: Vec::new(alloc),
    })
}

/// The report of a run on problem `n` of the bench.
pub fn bench_report(alloc: Global, n: u32, ended: BenchResult) -> Result<Report, AllocError>
    ensures first { IfOk result (λ r. r.first.items ≡ text_of (bench_line n ended ∷ [])) }
    ensures second { IfOk result (λ r. r.second.items ≡ []) }
{
    let mut first = Vec::new(alloc);
    spell_number(b"% bench ", n, &mut first)?;
    first.push(b' ')?;
    append_result(ended, &mut first)?;
    first.push(b'\n')?;
    Ok(Report {
        first,
        second: Vec::new(alloc),
    })
}
