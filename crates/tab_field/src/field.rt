//! The field of a round's tableau.

ghost use Rattle.std.specs.Prelude.{◌≡◌, IfOk};
ghost use Rattle.unify.specs.View.{UnifiesTerms};
ghost use Rattle.round_offers.specs.RoundOffer.{tree_of_round};
ghost use Rattle.round_offers.proofs.RoundLaws.{round_laws};
ghost use Rattle.tab_field.specs.PlaceValue.{tree_of_place};

use crate::place::Place;
use containers::Shared;
use lit_index::apart;
use nego_laws::field::Field;
use round_offers::TabOffer;
use std::alloc::{AllocError, Global};
use tab_tree::{Opposites, Round, arguments, pairs, root, site_name, split, split_place};
use unify::{Subst, empty, entails, same, unify};

/// The tableau of a round: sites are its segments, and offers are for its metavariables.
#[derive(Drop)]
pub struct TabField {
    pub round: Shared<Round>,
    pub alloc: Global,
}

/// A most general offer that goes on from the given one and makes the arguments equal. Arguments that no offer makes
/// equal are mostly told apart before the given offer is looked at.
fn made_equal(alloc: Global, given: &Subst, two: Opposites<'_>) -> Result<Option<Subst>, AllocError>
    ensures { IfOk result (UnifiesTerms given.now two.entry.atom.now two.entry.negated.now) }
{
    if two.atom.get().len() != two.negated.get().len() {
        return Ok(None);
    }
    if apart(two.atom, two.negated) {
        return Ok(None);
    }
    unify(alloc, given, two.atom, two.negated)
}

impl Field for TabField {
    type Offer = TabOffer;

    type Site = Place;

    ghost tree = { λ f. tree_of_round f.round };

    ghost around = { tree_of_place };

    ghost named = { λ place. place.name };

    fn root(&self) -> Result<Place, AllocError> {
        let site = root(self.alloc, self.round.get())?;
        Ok(Place::new(site, self.round.copy()?))
    }

    fn name(&self, site: &Place) -> u128 {
        site_name(site.site())
    }

    fn free(&self) -> Result<TabOffer, AllocError> {
        Ok(TabOffer::new(empty(self.alloc), self.round.copy()?))
    }

    fn items(&self, site: &Place) -> u64 {
        pairs(site.site()).len() as u64
    }

    fn has_parts(&self, site: &Place) -> bool {
        split_place(site.site()).is_some()
    }

    fn attempt(
        &self,
        site: &Place,
        item: u64,
        given: &TabOffer,
    ) -> Result<Option<TabOffer>, AllocError> {
        let two = match arguments(site.site(), item) {
            None => return Ok(Some(given.copy(self.alloc)?)),
            Some(two) => two,
        };
        match made_equal(self.alloc, given.bindings(), two)? {
            None => Ok(None),
            Some(bindings) => Ok(Some(TabOffer::new(bindings, self.round.copy()?))),
        }
    }

    fn parts(&self, site: &Place) -> Result<Option<(Place, Place)>, AllocError> {
        let first = self.round.copy()?;
        let second = self.round.copy()?;
        match split(self.alloc, self.round.get(), site.site())? {
            None => Ok(None),
            Some((left, right)) => {
                let left = Place::new(left, first);
                let right = Place::new(right, second);
                Ok(Some((left, right)))
            }
        }
    }

    fn entails(&self, a: &TabOffer, b: &TabOffer) -> bool {
        entails(a.bindings(), b.bindings())
    }

    fn same(&self, a: &TabOffer, b: &TabOffer) -> bool {
        same(a.bindings(), b.bindings())
    }

    ghost laws = { λ f. round_laws f.round };
}
