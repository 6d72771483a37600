//! What an offer has to make equal for a closing item.

ghost use Rattle.std.specs.Prelude.{◌≡◌, ◌<◌, ◌↔◌, length, slice_get, None, Some, IsTrue, MatchOption};
ghost use Rattle.free_terms.specs.View.{terms_of};
ghost use Rattle.rewrite_rules.specs.Firing.{literal_of};
ghost use Rattle.unify.specs.View.{offer_of};
ghost use Rattle.branch_rules.specs.Branch.{entries};
ghost use Rattle.branch_rules.specs.BranchValue.{branch_of};
ghost use Rattle.tab_tree.specs.Arguments.{HasArguments, IsItemOf, ItemHas};
ghost use Rattle.tab_tree.specs.ClosingView.{ClosesAt};
ghost use Rattle.tab_tree.specs.Literals.{Holds, HoldsLiteral};
ghost use Rattle.tab_tree.specs.Segments.{items};
ghost use Rattle.tab_tree.specs.SiteValue.{item_of, segment_of};

use crate::finding::formula_at;
use crate::item::Item;
use crate::site::{Site, branch, pairs};
use branch_rules::Branch;
use free_terms::FTerms;
use rewrite_rules::{Literal, literal_of};
use unify::{Subst, equates};

/// The arguments of an atom and of a negated atom of its predicate symbol.
#[derive(Clone, Copy)]
pub struct Opposites<'a> {
    pub atom: &'a FTerms,
    pub negated: &'a FTerms,
}

/// The literal at a place.
#[tactic(auto, using(crate::proofs::ItemArguments::within, crate::proofs::ItemArguments::no_other))]
fn literal_at(branch: &Branch, place: u32) -> Literal<'_>
    requires { HoldsLiteral (entries (branch_of branch.now)) place }
    ensures { Holds (entries (branch_of branch.now)) place
        (literal_of result.negated result.predicate (terms_of result.arguments.now)) }
{
    match literal_of(formula_at(branch, place)) {
        Some(literal) => literal,
        None => unreachable!(),
    }
}

/// The item of that number.
#[tactic(auto, using(crate::proofs::ItemArguments::item_there))]
fn item_at(site: &Site, item: u64) -> Item
    requires { item < length (items (segment_of site.now)) }
    ensures { slice_get (items (segment_of site.now)) item ≡ Some (item_of result) }
{
    let items = pairs(site);
    match items.get(item as usize) {
        Some(item) => *item,
        None => unreachable!(),
    }
}

/// What has to be made equal for the item of these places.
#[tactic(auto, using(crate::proofs::ItemArguments::two_have))]
fn arguments_of(branch: &Branch, item: Item) -> Option<Opposites<'_>>
    requires { IsItemOf (entries (branch_of branch.now)) (item_of item) }
    ensures { MatchOption result (HasArguments (entries (branch_of branch.now)) (item_of item) None)
        (λ two. HasArguments (entries (branch_of branch.now)) (item_of item)
        (Some (terms_of two.atom.now, terms_of two.negated.now))) }
{
    match item {
        Item::Pair { atom, negated } => {
            let atom = literal_at(branch, atom);
            let negated = literal_at(branch, negated);
            Some(Opposites {
                atom: atom.arguments,
                negated: negated.arguments,
            })
        }
        Item::FalseAt { .. } => None,
        Item::NotTrue { .. } => None,
    }
}

/// What has to be made equal for the item of that number, which exists: the arguments of its atom and of its negated
/// atom. None exactly where the item is one formula that is false by itself. It takes no memory.
#[tactic(auto, using(crate::proofs::ItemArguments::arguments_known))]
pub fn arguments(site: &Site, item: u64) -> Option<Opposites<'_>>
    requires { item < length (items (segment_of site.now)) }
    ensures { MatchOption result (ItemHas (segment_of site.now) item None)
        (λ two. ItemHas (segment_of site.now) item (Some (terms_of two.atom.now, terms_of two.negated.now))) }
{
    match arguments_of(branch(site), item_at(site, item)) {
        None => None,
        Some(two) => Some(two),
    }
}

/// Whether the offer equates the item of that number, which exists: it makes the arguments of its atom and of its
/// negated atom equal, or the item is one formula that is false by itself. It takes no memory.
#[tactic(auto, using(crate::proofs::ItemArguments::alone_at, crate::proofs::ItemArguments::two_at))]
pub fn is_closed_by(site: &Site, item: u64, s: &Subst) -> bool
    requires { item < length (items (segment_of site.now)) }
    ensures { IsTrue result ↔ ClosesAt (offer_of s.now) (segment_of site.now) item }
{
    match arguments(site, item) {
        None => true,
        Some(two) => equates(s, two.atom, two.negated),
    }
}
