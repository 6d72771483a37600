//! Reading formulas from the left.
//!
//! A formula may be deep to the left without a limit: a chain is read in a loop. What is read by calls, `~`,
//! quantifiers and their variables, `(`, and the unit behind an operator, adds to the nesting count of the statement,
//! which was tested before.

ghost use Rattle.std.specs.Prelude.{◌≡◌, ◌+◌, ◌<◌, None, Some, length, MatchOption, IfOk, IfSome, option_map};
ghost use Rattle.fol_core.specs.View.{formula_of};
ghost use Rattle.fol_core.specs.Syntax.{not};
ghost use Rattle.fof_parse.specs.Reader.Text.{AreIn, from};
ghost use Rattle.fof_parse.specs.Reader.Reading.{one_token, negation_lead, group_lead, quantifier_lead, lead_of};
ghost use Rattle.fof_parse.specs.Reader.Reading.{equality_of};
ghost use Rattle.fof_parse.specs.Reader.Reading.{operator_of, variable_of, repeats, can_join, next_operator};
ghost use Rattle.fof_parse.specs.Problem.{plain_binary, plain_quantified};
ghost use Rattle.fof_parse.specs.Reader.Views.{lead_view};
ghost use Rattle.fof_parse.specs.Reader.Parsing.{ReadsUnit, ReadsBound, ReadsScope, ReadsFormula, Parsed};
ghost use Rattle.fof_parse.specs.Reader.Building.{names, state_of};

use crate::atom::{atom, equation};
use crate::build::Draft;
use crate::term::{Raw, TermFront, term_at};
use crate::text::{Text, after_mark, token_at};
use crate::token::{Bracket, Equality, Mark, Operator, Quantifier, Token};
use containers::Shared;
use fol_core::Formula;
use std::alloc::{AllocError, Global};

/// A formula that stands at a place, and the place behind it.
#[derive(Drop)]
pub struct Front {
    pub formula: Formula,
    pub next: usize,
}

/// What a unit begins with that begins with no term.
#[derive(Clone, Copy, Debug)]
enum Lead {
    Negation,
    Group,
    Quantifier(Quantifier),
}

fn lead_at(text: &Text<'_>, at: usize) -> Option<Lead>
    requires { AreIn text.now }
    ensures lead { option_map (λ l. (lead_view l, from text.now (at + 1))) result
        ≡ one_token lead_of (from text.now at) }
    ensures within { IfSome result (λ l. at < length text.now.tokens.now) }
{
    match token_at(text, at)? {
        Token::Marked(Mark::Not) => Some(Lead::Negation),
        Token::Marked(Mark::Open(Bracket::Round)) => Some(Lead::Group),
        Token::Marked(Mark::Quantifier(q)) => Some(Lead::Quantifier(q)),
        _ => None,
    }
}

fn equality_at(text: &Text<'_>, at: usize) -> Option<Equality>
    requires { AreIn text.now }
    ensures equality { option_map (λ e. (e, from text.now (at + 1))) result ≡ one_token equality_of (from text.now at) }
    ensures within { IfSome result (λ e. at < length text.now.tokens.now) }
{
    match token_at(text, at)? {
        Token::Marked(Mark::Equality(e)) => Some(e),
        _ => None,
    }
}

fn operator_at(text: &Text<'_>, at: usize) -> Option<Operator>
    requires { AreIn text.now }
    ensures operator { option_map (λ op. (op, from text.now (at + 1))) result
        ≡ one_token operator_of (from text.now at) }
    ensures within { IfSome result (λ op. at < length text.now.tokens.now) }
{
    match token_at(text, at)? {
        Token::Marked(Mark::Binary(op)) => Some(op),
        _ => None,
    }
}

fn variable_at<'a>(text: &Text<'a>, at: usize) -> Option<&'a [u8]>
    requires { AreIn text.now }
    ensures variable { option_map (λ w. (w.now, from text.now (at + 1))) result
        ≡ one_token variable_of (from text.now at) }
    ensures within { IfSome result (λ w. at < length text.now.tokens.now) }
{
    match token_at(text, at)? {
        Token::Upper(word) => Some(word),
        _ => None,
    }
}

/// Whether more than two units can be joined by the operator.
fn repeats(op: Operator) -> bool
    ensures { result ≡ repeats op }
{
    matches!(op, Operator::And | Operator::Or)
}

/// Whether a formula goes on with the operator, whose units so far are joined by another, or which is one unit so far.
fn can_join(by: Option<Operator>, op: Operator) -> bool
    ensures { result ≡ can_join by op }
{
    match by {
        None => true,
        Some(by) => by == op && repeats(op),
    }
}

/// The operator with which a formula goes on.
fn next_operator(text: &Text<'_>, by: Option<Operator>, at: usize) -> Option<Operator>
    requires { AreIn text.now }
    ensures operator { option_map (λ op. (op, from text.now (at + 1))) result ≡ next_operator by (from text.now at) }
    ensures within { IfSome result (λ op. at < length text.now.tokens.now) }
{
    let op = operator_at(text, at)?;
    if can_join(by, op) { Some(op) } else { None }
}

/// The negation of a formula.
pub fn negated(alloc: Global, formula: Formula) -> Result<Formula, AllocError>
    ensures { IfOk result (λ f. formula_of f ≡ not (formula_of formula)) }
{
    Ok(Formula::Not(Shared::new(alloc, formula)?))
}

/// Both formulas joined by the operator.
fn joined(alloc: Global, op: Operator, left: Formula, right: Formula) -> Result<Formula, AllocError>
    ensures { IfOk result (λ f. formula_of f ≡ plain_binary op (formula_of left) (formula_of right)) }
{
    let left = Shared::new(alloc, left)?;
    let right = Shared::new(alloc, right)?;
    match op {
        Operator::Implies => Ok(Formula::Imp(left, right)),
        Operator::ImpliedBy => Ok(Formula::Imp(right, left)),
        Operator::Equivalent => Ok(Formula::Iff(left, right)),
        Operator::NotEquivalent => negated(alloc, Formula::Iff(left, right)),
        Operator::NotAnd => negated(alloc, Formula::And(left, right)),
        Operator::NotOr => negated(alloc, Formula::Or(left, right)),
        Operator::And => Ok(Formula::And(left, right)),
        Operator::Or => Ok(Formula::Or(left, right)),
    }
}

fn quantified(alloc: Global, quantifier: Quantifier, body: Formula) -> Result<Formula, AllocError>
    ensures { IfOk result (λ f. formula_of f ≡ plain_quantified quantifier (formula_of body)) }
{
    let body = Shared::new(alloc, body)?;
    Ok(match quantifier {
        Quantifier::All => Formula::All(body),
        Quantifier::Some => Formula::Ex(body),
    })
}

/// The unit at a place that begins with a term: an atom or an equation.
fn atomic_at<'a>(
    alloc: Global,
    text: &Text<'a>,
    draft: &mut Draft,
    scope: &[&[u8]],
    at: usize,
) -> Result<Option<Front>, AllocError>
    requires text { AreIn text.now }
    requires lead { one_token lead_of (from text.now at) ≡ None }
    ensures { IfOk result (λ front. MatchOption front
        (ReadsUnit (from text.now at) None)
        (λ f. Parsed (ReadsUnit (from text.now at)) (names scope.now) (state_of draft.old) (state_of draft.new)
        (formula_of f.formula) (from text.now f.next) × (at < f.next))) }
{
    let Some(TermFront { term: left, next }) = term_at(alloc, text, at)? else {
        return Ok(None);
    };
    if let Some(_equality) = equality_at(text, next) {
        let Some(TermFront { term: right, next }) = term_at(alloc, text, next + 1)? else {
            return Ok(None);
        };
        let formula = equation(alloc, draft, scope, &left, &right)?;
        return Ok(Some(Front { formula, next }));
    }
    match &left {
        Raw::Applied(symbol, arguments) => {
            let formula = atom(alloc, draft, scope, *symbol, arguments)?;
            Ok(Some(Front { formula, next }))
        }
        Raw::Variable(_word) => Ok(None),
        Raw::Number(_word) => Ok(None),
        Raw::Distinct(_word) => Ok(None),
    }
}

/// The unit at a place, or None where none stands there. `scope` has the variables in scope, the outermost quantifier's
/// first.
#[cycle(reading)]
fn unit_at<'a>(
    alloc: Global,
    text: &Text<'a>,
    draft: &mut Draft,
    scope: &mut Vec<&'a [u8]>,
    at: usize,
) -> Result<Option<Front>, AllocError>
    requires { AreIn text.now }
    ensures scope { IfOk result (λ front. scope.new.items ≡ scope.old.items) }
    ensures unit { IfOk result (λ front. MatchOption front
        (ReadsUnit (from text.now at) None)
        (λ f. Parsed (ReadsUnit (from text.now at)) (names scope.old.items) (state_of draft.old) (state_of draft.new)
        (formula_of f.formula) (from text.now f.next) × (at < f.next))) }
{
    match lead_at(text, at) {
        None => atomic_at(alloc, text, draft, scope.as_slice(), at),
        Some(Lead::Negation) => negation_at(alloc, text, draft, scope, at),
        Some(Lead::Group) => group_at(alloc, text, draft, scope, at),
        Some(Lead::Quantifier(q)) => quantified_at(alloc, text, draft, scope, q, at),
    }
}

/// The unit whose `~` stands at a place.
#[cycle(reading)]
fn negation_at<'a>(
    alloc: Global,
    text: &Text<'a>,
    draft: &mut Draft,
    scope: &mut Vec<&'a [u8]>,
    at: usize,
) -> Result<Option<Front>, AllocError>
    requires text { AreIn text.now }
    requires lead { one_token lead_of (from text.now at) ≡ Some (negation_lead, from text.now (at + 1)) }
    requires within { at < length text.now.tokens.now }
    ensures scope { IfOk result (λ front. scope.new.items ≡ scope.old.items) }
    ensures unit { IfOk result (λ front. MatchOption front
        (ReadsUnit (from text.now at) None)
        (λ f. Parsed (ReadsUnit (from text.now at)) (names scope.old.items) (state_of draft.old) (state_of draft.new)
        (formula_of f.formula) (from text.now f.next) × (at < f.next))) }
{
    let Some(Front { formula, next }) = unit_at(alloc, text, draft, scope, at + 1)? else {
        return Ok(None);
    };
    let formula = negated(alloc, formula)?;
    Ok(Some(Front { formula, next }))
}

/// The formula in parentheses whose `(` stands at a place.
#[cycle(reading)]
fn group_at<'a>(
    alloc: Global,
    text: &Text<'a>,
    draft: &mut Draft,
    scope: &mut Vec<&'a [u8]>,
    at: usize,
) -> Result<Option<Front>, AllocError>
    requires text { AreIn text.now }
    requires lead { one_token lead_of (from text.now at) ≡ Some (group_lead, from text.now (at + 1)) }
    requires within { at < length text.now.tokens.now }
    ensures scope { IfOk result (λ front. scope.new.items ≡ scope.old.items) }
    ensures unit { IfOk result (λ front. MatchOption front
        (ReadsUnit (from text.now at) None)
        (λ f. Parsed (ReadsUnit (from text.now at)) (names scope.old.items) (state_of draft.old) (state_of draft.new)
        (formula_of f.formula) (from text.now f.next) × (at < f.next))) }
{
    let Some(Front { formula, next }) = formula_at(alloc, text, draft, scope, at + 1)? else {
        return Ok(None);
    };
    match after_mark(text, next, Mark::Close(Bracket::Round)) {
        None => Ok(None),
        Some(next) => Ok(Some(Front { formula, next })),
    }
}

/// The unit whose quantifier stands at a place.
#[cycle(reading)]
fn quantified_at<'a>(
    alloc: Global,
    text: &Text<'a>,
    draft: &mut Draft,
    scope: &mut Vec<&'a [u8]>,
    quantifier: Quantifier,
    at: usize,
) -> Result<Option<Front>, AllocError>
    requires text { AreIn text.now }
    requires lead { one_token lead_of (from text.now at) ≡ Some (quantifier_lead quantifier, from text.now (at + 1)) }
    requires within { at < length text.now.tokens.now }
    ensures scope { IfOk result (λ front. scope.new.items ≡ scope.old.items) }
    ensures unit { IfOk result (λ front. MatchOption front
        (ReadsUnit (from text.now at) None)
        (λ f. Parsed (ReadsUnit (from text.now at)) (names scope.old.items) (state_of draft.old) (state_of draft.new)
        (formula_of f.formula) (from text.now f.next) × (at < f.next))) }
{
    let Some(inner) = after_mark(text, at + 1, Mark::Open(Bracket::Square)) else {
        return Ok(None);
    };
    let Some(front) = scope_at(alloc, text, draft, scope, quantifier, inner)? else {
        return Ok(None);
    };
    Ok(Some(front))
}

/// The quantifier's variables at a place, and the unit behind them.
#[cycle(reading)]
fn scope_at<'a>(
    alloc: Global,
    text: &Text<'a>,
    draft: &mut Draft,
    scope: &mut Vec<&'a [u8]>,
    quantifier: Quantifier,
    at: usize,
) -> Result<Option<Front>, AllocError>
    requires { AreIn text.now }
    ensures scope { IfOk result (λ front. scope.new.items ≡ scope.old.items) }
    ensures unit { IfOk result (λ front. MatchOption front
        (ReadsScope quantifier (from text.now at) None)
        (λ f. Parsed (ReadsScope quantifier (from text.now at)) (names scope.old.items) (state_of draft.old)
        (state_of draft.new) (formula_of f.formula) (from text.now f.next) × (at < f.next))) }
{
    let Some(name) = variable_at(text, at) else {
        return Ok(None);
    };
    scope.push(name)?;
    let bound = bound_at(alloc, text, draft, scope, quantifier, at + 1)?;
    scope.pop();
    let Some(Front { formula, next }) = bound else {
        return Ok(None);
    };
    let formula = quantified(alloc, quantifier, formula)?;
    Ok(Some(Front { formula, next }))
}

/// What stands behind a variable of a quantifier: further variables with the unit behind them, or the unit.
#[cycle(reading)]
fn bound_at<'a>(
    alloc: Global,
    text: &Text<'a>,
    draft: &mut Draft,
    scope: &mut Vec<&'a [u8]>,
    quantifier: Quantifier,
    at: usize,
) -> Result<Option<Front>, AllocError>
    requires { AreIn text.now }
    ensures scope { IfOk result (λ front. scope.new.items ≡ scope.old.items) }
    ensures unit { IfOk result (λ front. MatchOption front
        (ReadsBound quantifier (from text.now at) None)
        (λ f. Parsed (ReadsBound quantifier (from text.now at)) (names scope.old.items) (state_of draft.old)
        (state_of draft.new) (formula_of f.formula) (from text.now f.next) × (at < f.next))) }
{
    if let Some(more) = after_mark(text, at, Mark::Comma) {
        return scope_at(alloc, text, draft, scope, quantifier, more);
    }
    let Some(behind) = after_mark(text, at, Mark::Close(Bracket::Square)) else {
        return Ok(None);
    };
    match after_mark(text, behind, Mark::Colon) {
        None => Ok(None),
        Some(body) => unit_at(alloc, text, draft, scope, body),
    }
}

/// The longest formula at a place, or None where none stands there.
#[cycle(reading)]
pub fn formula_at<'a>(
    alloc: Global,
    text: &Text<'a>,
    draft: &mut Draft,
    scope: &mut Vec<&'a [u8]>,
    at: usize,
) -> Result<Option<Front>, AllocError>
    requires { AreIn text.now }
    ensures scope { IfOk result (λ front. scope.new.items ≡ scope.old.items) }
    ensures formula { IfOk result (λ front. MatchOption front
        (ReadsFormula (from text.now at) None)
        (λ f. Parsed (ReadsFormula (from text.now at)) (names scope.old.items) (state_of draft.old) (state_of draft.new)
        (formula_of f.formula) (from text.now f.next) × (at < f.next))) }
{
    let Some(first) = unit_at(alloc, text, draft, scope, at)? else {
        return Ok(None);
    };
    let mut front = first;
    let mut by = None;
    while let Some(op) = next_operator(text, by, front.next) {
        let Some(right) = unit_at(alloc, text, draft, scope, front.next + 1)? else {
            return Ok(None);
        };
        front = Front {
            formula: joined(alloc, op, front.formula, right.formula)?,
            next: right.next,
        };
        by = Some(op);
    }
    Ok(Some(front))
}
