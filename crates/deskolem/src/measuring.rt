//! The length of the translation's text, and how deep its terms nest, counted without building the terms.

ghost use Rattle.std.specs.Prelude.{◌≡◌, ◌≤◌, List, [], ◌∷◌, IfOk};
ghost use Rattle.std.specs.List.{AllByRecursion};
ghost use Rattle.fol_core.specs.Symbol.{Symbol};
ghost use Rattle.gs3_rules.specs.Rules.{gamma};
ghost use Rattle.free_terms.specs.Free as spec;
ghost use Rattle.free_terms.specs.View as free;
ghost use Rattle.rewrite_expand.specs.Expansion.{last_of};
ghost use Rattle.unify.specs.Measure.{AreMeasured};
ghost use Rattle.unify.specs.View.{offer_of};
ghost use Rattle.translation.specs.Translation.{fill_under, term_under};
ghost use Rattle.deskolem.specs.Lines.{HasRoom, IsWithin, expansion_by, opening, rules_of_line, rules_of_lines};
ghost use Rattle.deskolem.specs.View.{names_of};
ghost use Rattle.deskolem.specs.Sums.{Adds, AddsFills, AreLengths, closed_fills, most_counted, split_of};
ghost use Rattle.gs3_text.specs.declared.limit.TheConstants.{MAX_PROOF_BYTES};

use crate::answer::GsError;
use crate::count::{Count, MOST_COUNTED, add, digits};
use crate::line::{Line, Rewriting};
use crate::parameters::Parameters;
use crate::value::metavariable;
use free_terms::{FTerm, Fill};
use std::alloc::Global;
use unify::{Extents, Lengths, Subst, measure, no_extents};

/// The count with the gamma steps of a rewriting, and the place of the formula that these end with.
#[derive(Clone, Copy)]
struct Opened {
    count: Count,
    place: u32,
}

/// Adds a gamma step.
fn add_gamma(
    offer: &Subst,
    lengths: &Lengths,
    so_far: Count,
    place: u32,
    term: &FTerm,
    limit: u64,
    noted: &mut Extents,
) -> Result<Count, GsError>
    requires so_far { so_far.bytes ≤ limit }
    requires limit { limit ≤ MAX_PROOF_BYTES }
    requires noted { AreMeasured (offer_of offer.now) lengths.now most_counted noted.old }
    ensures noted { IfOk result (λ _. AreMeasured (offer_of offer.now) lengths.now most_counted noted.new) }
    ensures fits { IfOk result (λ c. c.bytes ≤ limit) }
    ensures sum { (fs : List Symbol) (ys : List spec.Name) → AreLengths fs ys lengths.now
        → Adds fs so_far (gamma place (term_under (offer_of offer.now) ys (free.term_of term.now)) ∷ []) limit result }
{
    let extent = measure(offer, lengths, term, MOST_COUNTED, noted)?;
    add(
        so_far,
        8 + digits(place as u64) + extent.length,
        extent.depth,
        limit,
    )
}

fn add_fill(
    offer: &Subst,
    lengths: &Lengths,
    so_far: Count,
    place: u32,
    fill: &Fill,
    limit: u64,
    noted: &mut Extents,
) -> Result<Count, GsError>
    requires so_far { so_far.bytes ≤ limit }
    requires limit { limit ≤ MAX_PROOF_BYTES }
    requires noted { AreMeasured (offer_of offer.now) lengths.now most_counted noted.old }
    ensures noted { IfOk result (λ _. AreMeasured (offer_of offer.now) lengths.now most_counted noted.new) }
    ensures fits { IfOk result (λ c. c.bytes ≤ limit) }
    ensures sum { (fs : List Symbol) (ys : List spec.Name) → AreLengths fs ys lengths.now
        → Adds fs so_far (gamma place (fill_under (offer_of offer.now) ys (free.fill_of fill.now)) ∷ []) limit result }
{
    match fill {
        Fill::Given(term) => add_gamma(offer, lengths, so_far, place, term, limit, noted),
        Fill::Unused => add(so_far, 8 + digits(place as u64) + 1 + digits(0), 1, limit),
    }
}

/// Adds the gamma steps of a rewriting.
fn add_fills(
    offer: &Subst,
    lengths: &Lengths,
    so_far: Count,
    rewriting: &Rewriting,
    limit: u64,
    noted: &mut Extents,
) -> Result<Opened, GsError>
    requires so_far { so_far.bytes ≤ limit }
    requires limit { limit ≤ MAX_PROOF_BYTES }
    requires within { IsWithin rewriting.now }
    requires noted { AreMeasured (offer_of offer.now) lengths.now most_counted noted.old }
    ensures noted { IfOk result (λ _. AreMeasured (offer_of offer.now) lengths.now most_counted noted.new) }
    ensures fits { IfOk result (λ o. o.count.bytes ≤ limit) }
    ensures place { IfOk result (λ o. (ys : List spec.Name)
        → o.place ≡ last_of rewriting.now.axiom rewriting.now.len
        (closed_fills (offer_of offer.now) ys rewriting.now.rewritten.fills)) }
    ensures sum { (fs : List Symbol) (ys : List spec.Name) → AreLengths fs ys lengths.now
        → AddsFills fs (offer_of offer.now) ys so_far rewriting.now limit result }
{
    let fills = rewriting.rewritten.get().fills.as_slice();
    let mut count = so_far;
    let mut place = rewriting.axiom;
    let mut next = rewriting.len;
    let mut at = fills.len();
    while at > 0 {
        at -= 1;
        count = match add_fill(offer, lengths, count, place, &fills[at], limit, noted) {
            Ok(more) => more,
            Err(e) => return Err(e),
        };
        place = next;
        next += 1;
    }
    Ok(Opened { count, place })
}

/// Adds the steps of a rewriting that come before those with which the proof goes on.
fn add_rewriting(
    offer: &Subst,
    lengths: &Lengths,
    so_far: Count,
    rewriting: &Rewriting,
    limit: u64,
    noted: &mut Extents,
) -> Result<Count, GsError>
    requires so_far { so_far.bytes ≤ limit }
    requires limit { limit ≤ MAX_PROOF_BYTES }
    requires within { IsWithin rewriting.now }
    requires noted { AreMeasured (offer_of offer.now) lengths.now most_counted noted.old }
    ensures noted { IfOk result (λ _. AreMeasured (offer_of offer.now) lengths.now most_counted noted.new) }
    ensures fits { IfOk result (λ c. c.bytes ≤ limit) }
    ensures sum { (fs : List Symbol) (ys : List spec.Name) → AreLengths fs ys lengths.now
        → Adds fs so_far (opening (expansion_by (offer_of offer.now) ys rewriting.now)) limit result }
{
    let opened = match add_fills(offer, lengths, so_far, rewriting, limit, noted) {
        Ok(opened) => opened,
        Err(e) => return Err(e),
    };
    add_split(opened, rewriting, limit)
}

/// Adds the split of a rewriting behind its gamma steps, and the step that closes its left premise where the literal is
/// negated.
fn add_split(opened: Opened, rewriting: &Rewriting, limit: u64) -> Result<Count, GsError>
    requires count { opened.count.bytes ≤ limit }
    requires limit { limit ≤ MAX_PROOF_BYTES }
    requires within { IsWithin rewriting.now }
    ensures fits { IfOk result (λ c. c.bytes ≤ limit) }
    ensures sum { (fs : List Symbol) → Adds fs opened.count (split_of opened.place rewriting.now) limit result }
{
    let count = match add(opened.count, 6 + digits(opened.place as u64), 0, limit) {
        Ok(count) => count,
        Err(e) => return Err(e),
    };
    if rewriting.positive {
        return Ok(count);
    }
    let rewritten = rewriting.rewritten.get();
    let next = rewriting.len + rewritten.fills.len() as u32;
    let head = if rewritten.head_left { next } else { next + 1 };
    add(
        count,
        8 + digits(head as u64) + digits(rewriting.literal as u64),
        0,
        limit,
    )
}

/// Adds the step, or the steps, that the line stands for.
fn add_line(
    offer: &Subst,
    lengths: &Lengths,
    names: &Parameters,
    so_far: Count,
    line: &Line,
    limit: u64,
    noted: &mut Extents,
) -> Result<Count, GsError>
    requires so_far { so_far.bytes ≤ limit }
    requires limit { limit ≤ MAX_PROOF_BYTES }
    requires room { HasRoom line.now }
    requires noted { AreMeasured (offer_of offer.now) lengths.now most_counted noted.old }
    ensures noted { IfOk result (λ _. AreMeasured (offer_of offer.now) lengths.now most_counted noted.new) }
    ensures fits { IfOk result (λ c. c.bytes ≤ limit) }
    ensures sum { (fs : List Symbol) → AreLengths fs (names_of names.now) lengths.now
        → Adds fs so_far (rules_of_line (offer_of offer.now) (names_of names.now) line.now) limit result }
{
    match line {
        Line::Close { atom, negated } => add(
            so_far,
            8 + digits(*atom as u64) + digits(*negated as u64),
            0,
            limit,
        ),
        Line::FalseAt { place } => add(so_far, 7 + digits(*place as u64), 0, limit),
        Line::NotTrue { place } => add(so_far, 9 + digits(*place as u64), 0, limit),
        Line::Alpha { place } => add(so_far, 7 + digits(*place as u64), 0, limit),
        Line::Beta { place } => add(so_far, 6 + digits(*place as u64), 0, limit),
        Line::Delta { place, name } => {
            let number = names.number(name);
            add(so_far, 9 + digits(*place as u64) + digits(number), 1, limit)
        }
        Line::Gamma { place, name } => {
            let term = metavariable(name);
            add_gamma(offer, lengths, so_far, *place, &term, limit, noted)
        }
        Line::Rewrite(rewriting) => add_rewriting(offer, lengths, so_far, rewriting, limit, noted),
    }
}

/// The bytes and the nesting of a text with these lines, and Bytes exactly where the text is longer than the limit. No
/// term is built, and the value of each metavariable is gone through once.
pub(crate) fn measure_lines(
    alloc: Global,
    offer: &Subst,
    lengths: &Lengths,
    names: &Parameters,
    lines: &[Line],
    limit: u64,
) -> Result<Count, GsError>
    requires limit { limit ≤ MAX_PROOF_BYTES }
    requires room { AllByRecursion HasRoom lines.now }
    ensures { (fs : List Symbol) → AreLengths fs (names_of names.now) lengths.now
        → Adds fs (record { bytes = 6; depth = 0 })
        (rules_of_lines (offer_of offer.now) (names_of names.now) lines.now) limit result }
{
    if limit < 6 {
        return Err(GsError::Bytes);
    }
    let mut noted = no_extents(alloc);
    let mut count = Count { bytes: 6, depth: 0 };
    for line in lines {
        count = match add_line(offer, lengths, names, count, line, limit, &mut noted) {
            Ok(more) => more,
            Err(e) => return Err(e),
        };
    }
    Ok(count)
}
