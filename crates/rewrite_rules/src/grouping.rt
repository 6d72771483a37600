//! Rules in groups, by the predicate symbols of their heads.

ghost use Rattle.std.specs.Prelude.{◌≡◌, ◌<◌, ◌++◌, ◌∷◌, [], ℕ, length, get_or, IfOk, OnOk};
ghost use Rattle.rewrite_rules.specs.Groups.{AreGroups, rules_for};

use crate::rule::Rule;
use containers::{Items, Shared};
use std::alloc::{AllocError, Global};

/// Rules that share a predicate symbol, in their order.
pub(crate) type Group = Items<Shared<Rule>>;

/// The rules whose head has the predicate symbol. Behind the last group there are none.
pub(crate) fn group_of(groups: &[Group], predicate: u32) -> &[Shared<Rule>]
    ensures { result.now ≡ get_or groups.now predicate [] }
{
    match groups.get(predicate as usize) {
        Some(group) => group.as_slice(),
        None => &[],
    }
}

/// Adds empty groups until the predicate symbol has one.
fn widen(alloc: Global, groups: &mut Vec<Group>, predicate: usize) -> Result<(), AllocError>
    ensures same { OnOk result ((p : ℕ) → get_or groups.new.items p [] ≡ get_or groups.old.items p []) }
    ensures within { OnOk result (predicate < length groups.new.items) }
{
    while groups.len() <= predicate {
        groups.push(Items::new(alloc))?;
    }
    Ok(())
}

/// Adds the rule to its group.
fn add(alloc: Global, groups: &mut Vec<Group>, rule: Shared<Rule>) -> Result<(), AllocError>
    ensures { OnOk result ((p : ℕ) →
        get_or groups.new.items p [] ≡ get_or groups.old.items p [] ++ rules_for p (rule ∷ [])) }
{
    let predicate = rule.get().predicate as usize;
    widen(alloc, groups, predicate)?;
    groups[predicate].push(rule)
}

/// The groups of the rules, each at the place that is its predicate symbol's number.
pub(crate) fn groups_of(alloc: Global, rules: &[Shared<Rule>]) -> Result<Vec<Group>, AllocError>
    ensures { IfOk result (λ groups. AreGroups rules.now groups.items) }
{
    let mut groups = Vec::new(alloc);
    for rule in rules {
        add(alloc, &mut groups, rule.copy()?)?;
    }
    Ok(groups)
}
