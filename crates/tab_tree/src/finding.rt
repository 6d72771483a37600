//! The closing items of a segment.

ghost use Rattle.std.specs.Prelude.{◌≡◌, ◌<◌, ◌++◌, ◌∷◌, [], ◌+◌, not, length, take, All, IfOk, OnOk};
ghost use Rattle.free_terms.specs.View.{formula_of};
ghost use Rattle.lit_index.specs.Occurrences.{occurrence, places_of};
ghost use Rattle.branch_rules.specs.Branch.{entries};
ghost use Rattle.branch_rules.specs.BranchValue.{branch_of};
ghost use Rattle.tab_tree.specs.Items.{items_of, single};
ghost use Rattle.tab_tree.specs.ItemsAt.{pair_of, pairs_of};
ghost use Rattle.tab_tree.specs.Literals.{is_verum, occurrences, Holds};
ghost use Rattle.tab_tree.specs.SiteValue.{item_of, items_in};

use crate::item::{Item, TabItems};
use branch_rules::{Branch, entry, len};
use containers::Items;
use free_terms::FFormula;
use lit_index::LitIndex;
use rewrite_rules::{Literal, literal_of};
use std::alloc::{AllocError, Global};

/// The formula at a place of the branch.
pub(crate) fn formula_at(branch: &Branch, place: u32) -> &FFormula
    requires { place < length (entries (branch_of branch.now)) }
    ensures { Holds (entries (branch_of branch.now)) place (formula_of result.now) }
{
    match entry(branch, place) {
        Some(e) => &e.formula,
        None => unreachable!(),
    }
}

/// The item of a literal at a place and an opposite one.
fn pair_of(negated: bool, place: u32, opposite: u32) -> Item
    ensures { item_of result ≡ pair_of negated place opposite }
{
    if negated {
        Item::Pair {
            atom: opposite,
            negated: place,
        }
    } else {
        Item::Pair {
            atom: place,
            negated: opposite,
        }
    }
}

/// Adds the items of a literal at a place and the opposite ones.
fn push_pairs(
    out: &mut TabItems,
    negated: bool,
    place: u32,
    opposites: &[u32],
) -> Result<(), AllocError>
    ensures { OnOk result (items_in out.new ≡ items_in out.old ++ pairs_of negated place opposites.now) }
{
    for opposite in opposites {
        out.push(pair_of(negated, place, *opposite))?;
    }
    Ok(())
}

fn is_verum(f: &FFormula) -> bool
    ensures { result ≡ is_verum (formula_of f.now) }
{
    match f {
        FFormula::Verum => true,
        FFormula::Atom(..) | FFormula::Falsum | FFormula::Not(_) | FFormula::And(..) => false,
        FFormula::Or(..) | FFormula::Imp(..) | FFormula::Iff(..) => false,
        FFormula::All(_) | FFormula::Ex(_) => false,
    }
}

/// Adds the item of a formula that is false by itself.
fn push_single(out: &mut TabItems, place: u32, f: &FFormula) -> Result<(), AllocError>
    ensures { OnOk result (items_in out.new ≡ items_in out.old ++ single place (formula_of f.now)) }
{
    match f {
        FFormula::Falsum => out.push(Item::FalseAt { place })?,
        FFormula::Not(a) => {
            if is_verum(a.get()) {
                out.push(Item::NotTrue { place })?;
            }
        }
        FFormula::Atom(..) | FFormula::Verum | FFormula::And(..) | FFormula::Or(..) => {}
        FFormula::Imp(..) | FFormula::Iff(..) | FFormula::All(_) | FFormula::Ex(_) => {}
    }
    Ok(())
}

/// Adds the items of a literal at a place with the opposite ones of the index, and the literal to the index.
fn push_literal_items(
    index: &mut LitIndex,
    place: u32,
    literal: Literal<'_>,
    out: &mut TabItems,
) -> Result<(), AllocError>
    requires { All (λ o. o.place < place) index.old }
    ensures items { OnOk result (items_in out.new ≡ items_in out.old ++ pairs_of literal.entry.negated place
        (places_of (not literal.entry.negated) literal.entry.predicate index.old)) }
    ensures index { OnOk result (index.new ≡ index.old
        ++ occurrence place literal.entry.negated literal.entry.predicate ∷ []) }
{
    let opposites = index.opposites(literal.negated, literal.predicate)?;
    push_pairs(out, literal.negated, place, opposites.as_slice())?;
    index.add(place, literal.negated, literal.predicate)
}

/// Adds the items of the formula at a place, with those before it and by itself. The index holds the literals before
/// the place, and then the formula too if it is one.
#[tactic(auto, using(crate::proofs::OwnItems::items_next, crate::proofs::OwnItems::items_of_other))]
fn push_items_at(
    branch: &Branch,
    place: u32,
    index: &mut LitIndex,
    out: &mut TabItems,
) -> Result<(), AllocError>
    requires within { place < length (entries (branch_of branch.now)) }
    requires index { index.old ≡ occurrences (take place (entries (branch_of branch.now))) }
    ensures items { OnOk result (items_in out.new ++ items_of (place + 1) (entries (branch_of branch.now))
        ≡ items_in out.old ++ items_of place (entries (branch_of branch.now))) }
    ensures index { OnOk result (index.new ≡ occurrences (take (place + 1) (entries (branch_of branch.now)))) }
{
    let f = formula_at(branch, place);
    match literal_of(f) {
        Some(literal) => push_literal_items(index, place, literal, out)?,
        None => push_single(out, place, f)?,
    }
    Ok(())
}

/// The items of the entries from the place on, with those before them and by themselves. The index holds the literals
/// before the place, and then all of the branch.
#[tactic(auto, using(crate::proofs::OwnItems::items_end))]
pub(crate) fn own_items(
    alloc: Global,
    branch: &Branch,
    from: u32,
    index: &mut LitIndex,
) -> Result<TabItems, AllocError>
    requires { index.old ≡ occurrences (take from (entries (branch_of branch.now))) }
    ensures items { IfOk result (λ is. items_in is ≡ items_of from (entries (branch_of branch.now))) }
    ensures index { OnOk result (index.new ≡ occurrences (entries (branch_of branch.now))) }
{
    let mut out = Items::new(alloc);
    for place in from..len(branch) {
        push_items_at(branch, place, index, &mut out)?;
    }
    Ok(out)
}
