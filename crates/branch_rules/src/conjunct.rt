//! Conjunctive steps and rewritings.

ghost use Rattle.std.specs.Prelude.{◌≡◌, IfOk};
ghost use Rattle.rewrite_rules.specs.RuleView.{rules_in};
ghost use Rattle.branch_rules.specs.BranchValue.{entry_of};
ghost use Rattle.branch_rules.specs.BranchView.{branch_in, Reads};
ghost use Rattle.branch_rules.specs.Plans.{RewritingAnswer, ConjunctiveAnswer, FirstConjunctive, IsFirstUntakenFrom};

use crate::branch::Lists;
use crate::finding::is_candidate;
use crate::held::Entry;
use crate::kinds::{Kind, kind_of};
use crate::lists::entry_at;
use crate::parts::conjuncts;
use crate::step::TabKind;
use crate::work::Work;
use containers::{Items, Shared};
use rewrite_rules::{Rules, rewrite};
use std::alloc::{AllocError, Global};

/// The work of a rewriting.
fn rewriting(
    alloc: Global,
    rules: &Rules,
    place: u32,
    entry: &Entry,
) -> Result<Option<Work>, AllocError>
    ensures { IfOk result (λ o. RewritingAnswer (rules_in rules.now) place (entry_of entry.now) o) }
{
    match rewrite(alloc, rules, &entry.formula)? {
        None => Ok(None),
        Some(rewritten) => {
            let mut parts = Items::new(alloc);
            parts.push(rewritten.result.copy()?)?;
            let level = entry.level.checked_add(1).ok_or(AllocError)?;
            Ok(Some(Work {
                place,
                kind: TabKind::Rewrite(Shared::new(alloc, rewritten)?),
                level,
                parts,
            }))
        }
    }
}

/// What a conjunctive step or a rewriting does with the entry, if one serves it.
fn conjunctive(
    alloc: Global,
    rules: &Rules,
    place: u32,
    entry: &Entry,
    depth: u32,
) -> Result<Option<Work>, AllocError>
    ensures { IfOk result (λ o. ConjunctiveAnswer (rules_in rules.now) place depth (entry_of entry.now) o) }
{
    match kind_of(&entry.formula) {
        Kind::Conjunctive => Ok(Some(Work {
            place,
            kind: TabKind::Alpha,
            level: entry.level,
            parts: conjuncts(alloc, &entry.formula)?,
        })),
        Kind::Literal => {
            if entry.level as u64 >= 8 * depth as u64 {
                return Ok(None);
            }
            rewriting(alloc, rules, place, entry)
        }
        Kind::Existential | Kind::Disjunctive | Kind::Universal => Ok(None),
    }
}

/// The work of the first pending conjunctive entry from the place on. From the place `sure` on none was taken.
pub(crate) fn find_conjunctive(
    alloc: Global,
    lists: &Lists,
    rules: &Rules,
    from: u32,
    sure: u32,
    depth: u32,
) -> Result<Option<Work>, AllocError>
    requires reads { Reads (branch_in lists.now) lists.now }
    requires rules { rules.now ≡ lists.now.rules }
    requires untaken { IsFirstUntakenFrom (branch_in lists.now) sure }
    ensures { IfOk result (λ o. FirstConjunctive (branch_in lists.now) depth from o) }
{
    for i in from..lists.entries.len() {
        if is_candidate(lists, rules, sure, i) {
            let entry = entry_at(lists, i);
            if let Some(work) = conjunctive(alloc, rules, i, entry, depth)? {
                return Ok(Some(work));
            }
        }
    }
    Ok(None)
}
