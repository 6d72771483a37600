//! The steps that stand for the rewriting of a literal.

ghost use Rattle.std.specs.Prelude.{◌≡◌, ◌+◌, ◌≤◌, ◌++◌, ◌∷◌, [], List, ℕ, Some, length, map, slice_get, IfOk};
ghost use Rattle.fol_core.specs.Syntax.{PlainFormula};
ghost use Rattle.fol_core.specs.View.{term_of};
ghost use Rattle.gs3_rules.specs.Apply.{rule_of, rules_of};
ghost use Rattle.gs3_rules.specs.Rules.{Rule, beta};
ghost use Rattle.gs3_rules.specs.Refutes.{ProofTree, RefutedBy, preorder};
ghost use Rattle.rewrite_expand.specs.Expansion.{body_place, expansion, gamma_steps, head_place, last_of, opposite};
ghost use Rattle.rewrite_expand.specs.Expansion.{rewriting, whole};
ghost use Rattle.rewrite_expand.specs.Soundness.{IsRewriting, literal};
ghost use Rattle.rewrite_expand.specs.View.{expansion_of};

use containers::Items;
use fol_core::Terms;
use gs3_rules::{Step, Steps};
use std::alloc::{AllocError, Global};

/// The steps that stand for the rewriting of a literal.
#[derive(Drop)]
pub struct Expanded {
    /// The gamma steps on the rule's axiom, and the split of the equivalence that they end with.
    pub before: Steps,
    /// The step that closes the premise which does not go on.
    pub close: Step,
    /// Where the body, or its negation, stands in the premise that goes on.
    pub result_place: u32,
    /// Whether the closed premise is the left one.
    pub close_first: bool,
}

/// The gamma steps that give the axiom's quantifiers the terms and then the split, on a list of `n_places` formulas.
fn steps_before(
    alloc: Global,
    n_places: u32,
    axiom_place: u32,
    terms: &Terms,
) -> Result<Steps, AllocError>
    requires { n_places + length terms.now ≤ 4294967295 }
    ensures { IfOk result (λ steps. rules_of steps ≡ gamma_steps axiom_place n_places (map term_of terms.now)
        ++ beta (last_of axiom_place n_places (map term_of terms.now)) ∷ []) }
{
    let mut steps = Items::new(alloc);
    let mut place = axiom_place;
    let mut next = n_places;
    for term in terms.get().as_slice() {
        let term = term.copy()?;
        steps.push(Step::Gamma { place, term })?;
        place = next;
        next += 1;
    }
    steps.push(Step::Beta { place })?;
    Ok(steps)
}

/// Where the rule's head and its body stand in a premise of the split, behind a list of `len` formulas.
fn side_places(head_left: bool, len: u32) -> (u32, u32)
    requires { len ≤ 4294967294 }
    ensures head { result.0 ≡ head_place head_left len }
    ensures body { result.1 ≡ body_place head_left len }
{
    if head_left {
        (len, len + 1)
    } else {
        (len + 1, len)
    }
}

/// The step that closes the premise in which the literal at `place` has its opposite at `other`.
fn closing(positive: bool, place: u32, other: u32) -> Step
    ensures { rule_of result ≡ opposite positive place other }
{
    if positive {
        Step::Close {
            atom: place,
            negated: other,
        }
    } else {
        Step::Close {
            atom: other,
            negated: place,
        }
    }
}

/// The steps, place by place.
fn rewriting_steps(
    alloc: Global,
    n_places: u32,
    axiom_place: u32,
    literal_place: u32,
    positive: bool,
    head_left: bool,
    terms: &Terms,
) -> Result<Expanded, AllocError>
    requires { n_places + length terms.now ≤ 4294967294 }
    ensures { IfOk result (λ e. expansion_of e
        ≡ expansion n_places axiom_place literal_place positive head_left (map term_of terms.now)) }
{
    let before = steps_before(alloc, n_places, axiom_place, terms)?;
    let first = n_places + terms.get().len() as u32;
    let (head, result_place) = side_places(head_left, first);
    Ok(Expanded {
        before,
        close: closing(positive, literal_place, head),
        result_place,
        close_first: !positive,
    })
}

/// The rewriting of the literal at `literal_place` by the equivalence of the axiom at `axiom_place`, on a list of
/// `n_places` formulas. The literal is an atom where `positive`, else a negated one. `head_left` says that the atom is
/// the equivalence's left side. The terms are those of the axiom's quantifiers, from the outermost on. An error is want
/// of memory.
///
/// Each gamma step is on what the one before it appended, the first one on the axiom. Of the split's premises an atom
/// goes on in the left one with the body, and closes the right one; a negated atom closes the left one, and goes on in
/// the right one with the body's negation. Where the steps that the proof goes on with refute the list of that
/// premise, the whole refutes the list, and the body or its negation stands in that premise at `result_place`.
pub fn expand(
    alloc: Global,
    n_places: u32,
    axiom_place: u32,
    literal_place: u32,
    positive: bool,
    head_left: bool,
    terms: &Terms,
) -> Result<Expanded, AllocError>
    requires { n_places + length terms.now ≤ 4294967294 }
    ensures steps { IfOk result (λ e. expansion_of e
        ≡ expansion n_places axiom_place literal_place positive head_left (map term_of terms.now)) }
    ensures tree { IfOk result (λ e. (go_on : ℕ → ProofTree) →
        preorder (rewriting n_places axiom_place literal_place positive head_left (map term_of terms.now) go_on)
        ≡ whole (expansion_of e) (preorder (go_on e.result_place))) }
    ensures refutes { IfOk result (λ e. (list new : List PlainFormula) (steps : List Rule) →
        IsRewriting n_places axiom_place literal_place positive head_left (map term_of terms.now) list new →
        RefutedBy new steps → RefutedBy list (whole (expansion_of e) steps)) }
    ensures result { IfOk result (λ e. (list new : List PlainFormula)
        (r : IsRewriting n_places axiom_place literal_place positive head_left (map term_of terms.now) list new) →
        slice_get new e.result_place ≡ Some (literal positive r.body)) }
{
    rewriting_steps(
        alloc,
        n_places,
        axiom_place,
        literal_place,
        positive,
        head_left,
        terms,
    )
}
