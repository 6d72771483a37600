//! The rewriting of a literal.

ghost use Rattle.std.specs.Prelude.{◌≡◌, IfOk, MatchOption, option_map};
ghost use Rattle.free_terms.specs.View.{formula_of, terms_of};
ghost use Rattle.rewrite_rules.specs.Firing.{Answers, IsLiteral, literal_of};
ghost use Rattle.rewrite_rules.specs.Rewriting.{Rewrites};
ghost use Rattle.rewrite_rules.specs.RuleView.{rule_of, rules_in, rewriting_of};

use crate::rule::{Rewritten, Rule};
use crate::rules::Rules;
use containers::Shared;
use free_terms::{FFormula, FTerms, fill_all, match_into};
use std::alloc::{AllocError, Global};

/// An atom, or a negated one.
#[derive(Clone, Copy)]
pub struct Literal<'a> {
    pub predicate: u32,
    pub arguments: &'a FTerms,
    pub negated: bool,
}

/// The formula as a literal, and None exactly where it is none. It takes no memory.
pub fn literal_of(f: &FFormula) -> Option<Literal<'_>>
    ensures { MatchOption result (IsLiteral (formula_of f.now) → ⊥)
        (λ l. formula_of f.now ≡ literal_of l.negated l.predicate (terms_of l.arguments.now)) }
{
    match f {
        FFormula::Atom(p, args) => Some(Literal {
            predicate: *p,
            arguments: args,
            negated: false,
        }),
        FFormula::Not(a) => match a.get() {
            FFormula::Atom(p, args) => Some(Literal {
                predicate: *p,
                arguments: args,
                negated: true,
            }),
            FFormula::Verum | FFormula::Falsum | FFormula::Not(_) | FFormula::And(..) => None,
            FFormula::Or(..) | FFormula::Imp(..) | FFormula::Iff(..) => None,
            FFormula::All(_) | FFormula::Ex(_) => None,
        },
        FFormula::Verum | FFormula::Falsum | FFormula::And(..) | FFormula::Or(..) => None,
        FFormula::Imp(..) | FFormula::Iff(..) | FFormula::All(_) | FFormula::Ex(_) => None,
    }
}

/// What the rule makes of an atom of its predicate symbol, or of a negated one, if its head matches it.
fn apply(
    alloc: Global,
    rule: &Rule,
    args: &FTerms,
    negated: bool,
) -> Result<Option<Rewritten>, AllocError>
    ensures { IfOk result (λ o. Answers (rule_of rule.now)
        (literal_of negated rule.now.predicate (terms_of args.now)) (option_map rewriting_of o)) }
{
    match match_into(alloc, &rule.arguments, rule.count, args)? {
        None => Ok(None),
        Some(fills) => {
            let body = fill_all(alloc, &rule.body, &fills)?;
            let result = if negated {
                FFormula::Not(Shared::new(alloc, body)?)
            } else {
                body
            };
            Ok(Some(Rewritten {
                axiom: rule.axiom,
                head_left: rule.head_left,
                fills,
                result,
            }))
        }
    }
}

/// What the first rule whose head matches makes of the atom, or of the negated one.
fn rewrite_atom(
    alloc: Global,
    rules: &Rules,
    predicate: u32,
    args: &FTerms,
    negated: bool,
) -> Result<Option<Rewritten>, AllocError>
    ensures { IfOk result (λ o. Rewrites (rules_in rules.now)
        (literal_of negated predicate (terms_of args.now)) (option_map rewriting_of o)) }
{
    for rule in rules.for_predicate(predicate) {
        if let Some(rewritten) = apply(alloc, rule.get(), args, negated)? {
            return Ok(Some(rewritten));
        }
    }
    Ok(None)
}

/// What the first rule whose head matches makes of the literal: of an atom the body's instance, and of a negated atom
/// the negation of that instance. None exactly where no rule matches; a formula that is no literal has none. The
/// literal's metavariables count as constants. Only rules whose head has the literal's predicate symbol are tried. An
/// error is want of memory.
pub fn rewrite(
    alloc: Global,
    rules: &Rules,
    literal: &FFormula,
) -> Result<Option<Rewritten>, AllocError>
    ensures { IfOk result (λ o. Rewrites (rules_in rules.now) (formula_of literal.now) (option_map rewriting_of o)) }
{
    let Some(
        Literal {
            predicate,
            arguments,
            negated,
        },
    ) = literal_of(literal)
    else {
        return Ok(None);
    };
    rewrite_atom(alloc, rules, predicate, arguments, negated)
}
