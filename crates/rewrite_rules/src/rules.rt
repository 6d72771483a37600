//! The rules of a problem.

ghost use Rattle.std.specs.Prelude.{◌≡◌, ◌↔◌, IsTrue, IfOk};
ghost use Rattle.rewrite_rules.specs.Groups.{AreGroups, rules_for};
ghost use Rattle.rewrite_rules.specs.Rules.{IsRuleAxiom};
ghost use Rattle.rewrite_rules.specs.RuleView.{rules_in, AreMarks};

use crate::grouping::{Group, group_of, groups_of};
use crate::rule::Rule;
use containers::{Items, Shared};
use std::alloc::{AllocError, Global};
use std::marker::Model;

/// The rules of a problem, in the order of their axioms. Contracts see them as a list.
#[derive(Drop)]
pub struct Rules {
    items: Items<Shared<Rule>>,
    /// For each predicate symbol, the rules whose head has it.
    groups: Vec<Group>,
    /// For each axiom, whether it gave a rule.
    marks: Items<bool>,
}

impl Model for Rules {
    ghost use Rattle.std.specs.Prelude.{List};
    ghost use Rattle.rewrite_rules.specs.Groups.{AreGroups};
    ghost use Rattle.rewrite_rules.specs.RuleView.{AreMarks};
    ghost use Rattle.rewrite_rules.specs.declared.rule.Rule.{Rule};
    ghost use Rattle.rewrite_rules.specs.contracts.rule.Rule as rule;
    ghost use Rattle.std.specs.Coded.{coded_list};

    ghost Value = { List Rule };

    ghost coded = { coded_list rule.the_row.coded };

    ghost view = { λ r. r.items };

    ghost invariant = { λ r. AreGroups r.items r.groups.items × AreMarks r.items r.marks };
}

impl Rules {
    pub(crate) fn of(
        alloc: Global,
        items: Items<Shared<Rule>>,
        marks: Items<bool>,
    ) -> Result<Rules, AllocError>
        requires { AreMarks items marks }
        ensures { IfOk result (λ rules. rules ≡ items) }
    {
        let groups = groups_of(alloc, items.as_slice())?;
        Ok(Rules {
            items,
            groups,
            marks,
        })
    }

    /// The rules whose head has the predicate symbol, in their order.
    pub(crate) fn for_predicate(&self, predicate: u32) -> &[Shared<Rule>]
        ensures { result.now ≡ rules_for predicate self.now }
    {
        group_of(&self.groups, predicate)
    }

    fn marks(&self) -> &[bool]
        ensures { AreMarks self.now result.now }
    {
        self.marks.as_slice()
    }
}

/// Whether the axiom at the place gave a rule. It takes no memory.
pub fn is_rule_axiom(rules: &Rules, place: u32) -> bool
    ensures { IsTrue result ↔ IsRuleAxiom (rules_in rules.now) place }
{
    let marks = rules.marks();
    match marks.get(place as usize) {
        Some(mark) => *mark,
        None => false,
    }
}
