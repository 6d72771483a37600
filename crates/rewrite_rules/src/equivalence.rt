//! The rule that an axiom gives.

ghost use Rattle.std.specs.Prelude.{◌≡◌, suc, ◌↔◌, IsTrue, IfOk, MatchOption, option_map};
ghost use Rattle.fol_core.specs.View as plain;
ghost use Rattle.free_terms.specs.NoParam.{NoParamIn};
ghost use Rattle.free_terms.specs.Free as free;
ghost use Rattle.free_terms.specs.View.{formula_of};
ghost use Rattle.rewrite_rules.specs.Rules.{RewriteRule, FitsWith, IsRuleOf};
ghost use Rattle.fol_core.specs.Syntax.{PlainFormula, iff};
ghost use Rattle.rewrite_rules.specs.Fitting.{under, IsStripped, rule_with_head};
ghost use Rattle.rewrite_rules.specs.RuleView.{rule_of};

use crate::fitting::{uses_only, variables_of};
use crate::rule::Rule;
use fol_core::Formula;
use free_terms::{FFormula, lift};
use std::alloc::{AllocError, Global};

/// Whether the first side is an atom that has each variable of the second.
fn fits(alloc: Global, head: &Formula, body: &Formula) -> Result<bool, AllocError>
    ensures { IfOk result (λ r. (IsTrue r) ↔ FitsWith (plain.formula_of head.now) (plain.formula_of body.now)) }
{
    match head {
        Formula::Atom(_, args) => {
            let variables = variables_of(alloc, args)?;
            uses_only(body, 0, variables.as_slice())
        }
        Formula::Verum | Formula::Falsum | Formula::Not(_) => Ok(false),
        Formula::And(..) | Formula::Or(..) | Formula::Imp(..) => Ok(false),
        Formula::Iff(..) | Formula::All(_) | Formula::Ex(_) => Ok(false),
    }
}

/// One quantifier more. No formula that fits in memory has 2 ^ 32 of them.
fn one_more(count: u32) -> Result<u32, AllocError>
    ensures { IfOk result (λ n. n ≡ suc count) }
{
    count.checked_add(1).ok_or(AllocError)
}

/// What stands under all the outermost `!`, and how many these are.
#[tactic(auto, using(crate::proofs::Stripping::under_all))]
fn strip(f: &Formula) -> Result<(u32, &Formula), AllocError>
    ensures whole { IfOk result (λ r. plain.formula_of f.now ≡ under r.0 (plain.formula_of r.1.now)) }
    ensures end { IfOk result (λ r. IsStripped (plain.formula_of r.1.now)) }
{
    let mut count = 0u32;
    let mut at = f;
    while let Formula::All(body) = at {
        count = one_more(count)?;
        at = body.get();
    }
    Ok((count, at))
}

/// The formula as a body of a rule.
fn body_of(alloc: Global, f: &Formula) -> Result<FFormula, AllocError>
    requires { NoParamIn (plain.formula_of f.now) }
    ensures { IfOk result (λ g. formula_of g ≡ free.lift (plain.formula_of f.now)) }
{
    lift(alloc, f)
}

/// The head of a rule, which is the first side, with the other side as its body.
fn with_head(
    alloc: Global,
    place: u32,
    count: u32,
    head_left: bool,
    head: &Formula,
    body: &Formula,
) -> Result<Option<Rule>, AllocError>
    requires { NoParamIn (plain.formula_of body.now) }
    ensures { IfOk result (λ o. option_map rule_of o
        ≡ rule_with_head place count head_left (plain.formula_of head.now) (plain.formula_of body.now)) }
{
    match head {
        Formula::Atom(p, args) => Ok(Some(Rule {
            axiom: place,
            count,
            head_left,
            predicate: *p,
            arguments: args.copy()?,
            body: body_of(alloc, body)?,
        })),
        Formula::Verum | Formula::Falsum | Formula::Not(_) => Ok(None),
        Formula::And(..) | Formula::Or(..) | Formula::Imp(..) => Ok(None),
        Formula::Iff(..) | Formula::All(_) | Formula::Ex(_) => Ok(None),
    }
}

/// The rule of two sides, of which the first is the left one.
fn of_sides(
    alloc: Global,
    place: u32,
    count: u32,
    left: &Formula,
    right: &Formula,
) -> Result<Option<Rule>, AllocError>
    requires left { NoParamIn (plain.formula_of left.now) }
    requires right { NoParamIn (plain.formula_of right.now) }
    ensures { IfOk result (λ o. MatchOption o
        ((r : RewriteRule) →
        IsRuleOf place (under count (iff (plain.formula_of left.now) (plain.formula_of right.now))) r → ⊥)
        (λ r.
        IsRuleOf place (under count (iff (plain.formula_of left.now) (plain.formula_of right.now))) (rule_of r))) }
{
    if fits(alloc, left, right)? {
        return with_head(alloc, place, count, true, left, right);
    }
    if fits(alloc, right, left)? {
        return with_head(alloc, place, count, false, right, left);
    }
    Ok(None)
}

/// The sides of an equivalence.
fn sides(f: &Formula) -> Option<(&Formula, &Formula)>
    ensures { MatchOption result
        ((left right : PlainFormula) → plain.formula_of f.now ≡ iff left right → ⊥)
        (λ s. plain.formula_of f.now ≡ iff (plain.formula_of s.0.now) (plain.formula_of s.1.now)) }
{
    match f {
        Formula::Iff(a, b) => Some((a.get(), b.get())),
        Formula::Atom(..) | Formula::Verum | Formula::Falsum | Formula::Not(_) => None,
        Formula::And(..) | Formula::Or(..) | Formula::Imp(..) => None,
        Formula::All(_) | Formula::Ex(_) => None,
    }
}

/// The rule of an axiom, if it gives one.
pub(crate) fn rule_of_axiom(
    alloc: Global,
    place: u32,
    formula: &Formula,
) -> Result<Option<Rule>, AllocError>
    requires { NoParamIn (plain.formula_of formula.now) }
    ensures { IfOk result (λ o. MatchOption o
        ((r : RewriteRule) → IsRuleOf place (plain.formula_of formula.now) r → ⊥)
        (λ r. IsRuleOf place (plain.formula_of formula.now) (rule_of r))) }
{
    let (count, at) = strip(formula)?;
    match sides(at) {
        Some((left, right)) => of_sides(alloc, place, count, left, right),
        None => Ok(None),
    }
}
