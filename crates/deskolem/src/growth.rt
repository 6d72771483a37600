//! How many entries a step appends, read off its principal formula.

ghost use Rattle.std.specs.Prelude.{◌≡◌, ◌≤◌, length, slice_get};
ghost use Rattle.fol_core.specs.Syntax.{not};
ghost use Rattle.gs3_rules.specs.Rules.{alpha_parts, beta_parts};
ghost use Rattle.free_terms.specs.View.{formula_of};
ghost use Rattle.branch_rules.specs.Branch.{entries, or_none, left_part, right_part};
ghost use Rattle.branch_rules.specs.BranchValue.{branch_of};
ghost use Rattle.translation.specs.Translation as translation;
ghost use Rattle.translation.specs.Translation.{is_positive_at};
ghost use Rattle.deskolem.specs.Walked.{left_of, parts_of, right_of};

use branch_rules::{Branch, entry};
use free_terms::FFormula;

fn count_parts_of_not(f: &FFormula) -> u32
    ensures value { result ≡ length (or_none (alpha_parts (not (formula_of f.now)))) }
    ensures few { result ≤ 2 }
{
    match f {
        FFormula::Not(_) => 1,
        FFormula::Or(..) | FFormula::Imp(..) => 2,
        FFormula::Atom(..) | FFormula::Verum | FFormula::Falsum => 0,
        FFormula::And(..) | FFormula::Iff(..) | FFormula::All(_) | FFormula::Ex(_) => 0,
    }
}

/// How many parts a conjunctive formula has.
fn count_parts(f: &FFormula) -> u32
    ensures value { result ≡ length (or_none (alpha_parts (formula_of f.now))) }
    ensures few { result ≤ 2 }
{
    match f {
        FFormula::Not(a) => count_parts_of_not(a.get()),
        FFormula::And(..) => 2,
        FFormula::Atom(..) | FFormula::Verum | FFormula::Falsum => 0,
        FFormula::Or(..) | FFormula::Imp(..) | FFormula::Iff(..) => 0,
        FFormula::All(_) | FFormula::Ex(_) => 0,
    }
}

fn count_side_of_not(f: &FFormula) -> u32
    ensures left { result ≡ length (left_part (beta_parts (not (formula_of f.now)))) }
    ensures right { result ≡ length (right_part (beta_parts (not (formula_of f.now)))) }
    ensures few { result ≤ 2 }
{
    match f {
        FFormula::And(..) => 1,
        FFormula::Iff(..) => 2,
        FFormula::Atom(..) | FFormula::Verum | FFormula::Falsum | FFormula::Not(_) => 0,
        FFormula::Or(..) | FFormula::Imp(..) | FFormula::All(_) | FFormula::Ex(_) => 0,
    }
}

/// How many parts either side of a disjunctive formula has.
fn count_side(f: &FFormula) -> u32
    ensures left { result ≡ length (left_part (beta_parts (formula_of f.now))) }
    ensures right { result ≡ length (right_part (beta_parts (formula_of f.now))) }
    ensures few { result ≤ 2 }
{
    match f {
        FFormula::Not(a) => count_side_of_not(a.get()),
        FFormula::Or(..) | FFormula::Imp(..) => 1,
        FFormula::Iff(..) => 2,
        FFormula::Atom(..) | FFormula::Verum | FFormula::Falsum => 0,
        FFormula::And(..) | FFormula::All(_) | FFormula::Ex(_) => 0,
    }
}

/// Whether a literal is an atom.
fn is_positive(f: &FFormula) -> bool
    ensures { result ≡ translation.is_positive (formula_of f.now) }
{
    match f {
        FFormula::Not(_) => false,
        FFormula::Atom(..) | FFormula::Verum | FFormula::Falsum => true,
        FFormula::And(..) | FFormula::Or(..) | FFormula::Imp(..) | FFormula::Iff(..) => true,
        FFormula::All(_) | FFormula::Ex(_) => true,
    }
}

/// How many parts the conjunctive formula at the place has.
pub(crate) fn parts_at(branch: &Branch, place: u32) -> u32
    ensures value { result ≡ parts_of (slice_get (entries (branch_of branch.now)) place) }
    ensures few { result ≤ 2 }
{
    match entry(branch, place) {
        Some(e) => count_parts(&e.formula),
        None => 0,
    }
}

/// How many parts either side of the disjunctive formula at the place has.
pub(crate) fn side_at(branch: &Branch, place: u32) -> u32
    ensures left { result ≡ left_of (slice_get (entries (branch_of branch.now)) place) }
    ensures right { result ≡ right_of (slice_get (entries (branch_of branch.now)) place) }
    ensures few { result ≤ 2 }
{
    match entry(branch, place) {
        Some(e) => count_side(&e.formula),
        None => 0,
    }
}

/// Whether the literal at the place is an atom.
pub(crate) fn is_positive_at(branch: &Branch, place: u32) -> bool
    ensures { result ≡ is_positive_at (slice_get (entries (branch_of branch.now)) place) }
{
    match entry(branch, place) {
        Some(e) => is_positive(&e.formula),
        None => true,
    }
}
