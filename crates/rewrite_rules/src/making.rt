//! The rules that a problem's axioms give.

ghost use Rattle.std.specs.Prelude.{◌≡◌, [], ◌∷◌, ◌++◌, IfOk, OnOk, option_to_list};
ghost use Rattle.std.specs.Option.{is_some};
ghost use Rattle.fol_core.specs.View as plain;
ghost use Rattle.rewrite_rules.specs.Fitting.{HoldNoParams};
ghost use Rattle.fof_parse.specs.ProblemView.{plain_problem};
ghost use Rattle.rewrite_rules.specs.Rules.{AreRules, RulesOf};
ghost use Rattle.rewrite_rules.specs.RuleView.{rules_in};

use crate::equivalence::rule_of_axiom;
use crate::rule::Rule;
use crate::rules::Rules;
use containers::{Items, Shared};
use fof_parse::Problem;
use fol_core::Formulas;
use std::alloc::{AllocError, Global};

/// A place as a number of 32 bits. No problem has more axioms.
fn place_of(i: usize) -> Result<u32, AllocError>
    ensures { IfOk result (λ n. n ≡ i) }
{
    if i <= u32::MAX as usize {
        Ok(i as u32)
    } else {
        Err(AllocError)
    }
}

/// Adds what the next axiom gave.
fn add(
    alloc: Global,
    items: &mut Items<Shared<Rule>>,
    marks: &mut Items<bool>,
    made: Option<Rule>,
) -> Result<(), AllocError>
    ensures items { OnOk result (items.new ≡ items.old ++ option_to_list made) }
    ensures marks { OnOk result (marks.new ≡ marks.old ++ is_some made ∷ []) }
{
    match made {
        Some(rule) => {
            items.push(Shared::new(alloc, rule)?)?;
            marks.push(true)?;
        }
        None => marks.push(false)?,
    }
    Ok(())
}

/// The rules of these axioms.
fn rules_of_axioms(alloc: Global, axioms: &Formulas) -> Result<Rules, AllocError>
    requires { HoldNoParams (plain.formulas_of axioms.now) }
    ensures { IfOk result (λ rules. AreRules 0 (plain.formulas_of axioms.now) (rules_in rules)) }
{
    let mut items = Items::new(alloc);
    let mut marks = Items::new(alloc);
    let axioms = axioms.as_slice();
    for i in 0..axioms.len() {
        let place = place_of(i)?;
        let made = rule_of_axiom(alloc, place, &axioms[i])?;
        add(alloc, &mut items, &mut marks, made)?;
    }
    Rules::of(alloc, items, marks)
}

/// The rules that the problem's axioms give, in input order, with rewriting on, and none with it off. An axiom that is
/// an equivalence under any number of `!` gives one rule where a side fits: it is an atom, other than `$true` and
/// `$false`, that has each free variable of the other side. The rule's head is the left side if that fits, else the
/// right one. An error is want of memory.
pub fn rules_of(alloc: Global, problem: &Problem, on: bool) -> Result<Rules, AllocError>
    ensures { IfOk result (λ rules. RulesOf on (plain_problem problem.now).axioms (rules_in rules)) }
{
    if on {
        rules_of_axioms(alloc, &problem.axioms)
    } else {
        Rules::of(alloc, Items::new(alloc), Items::new(alloc))
    }
}
