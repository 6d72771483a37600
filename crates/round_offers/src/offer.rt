//! Offers of a round.

ghost use Rattle.std.specs.Prelude.{◌≡◌};
ghost use Rattle.unify.specs.Offers.{IsOffer};
ghost use Rattle.unify.specs.View.{offer_of};
ghost use Rattle.round_offers.specs.OfferOnce.{IsOffer-prop};

use containers::Shared;
use nego_laws::field::Offer;
use std::alloc::{AllocError, Global};
use std::marker::Model;
use tab_tree::Round;
use unify::{Subst, copy};

/// An offer of a round, which knows the round to which it belongs.
#[derive(Drop)]
pub struct TabOffer {
    bindings: Subst,
    round: Shared<Round>,
    ghost is_offer: { IsOffer (offer_of bindings) } by { IsOffer-prop (offer_of bindings) },
}

impl Model for TabOffer {
    ghost use Rattle.round_offers.specs.RoundOffer.{RoundOffer, round_offer_code, IsOfItsRound};

    ghost Value = { RoundOffer };

    ghost coded = { round_offer_code };

    ghost view = { λ o. record { bindings = o.bindings; is_offer = o.is_offer; round = o.round } };

    ghost invariant = { λ o. IsOfItsRound o.bindings o.round };
}

impl Offer for TabOffer {
    ghost use Rattle.round_offers.specs.RoundOffer.{tree_of_offer};

    ghost tree = { tree_of_offer };
}

impl TabOffer {
    ghost use Rattle.std.specs.Prelude.{IfOk};
    ghost use Rattle.round_offers.specs.RoundOffer.{IsOfItsRound};

    /// An offer of the round.
    pub fn new(bindings: Subst, round: Shared<Round>) -> TabOffer
        requires offer { IsOffer (offer_of bindings) }
        requires of_round { IsOfItsRound bindings round }
        ensures bindings { result.bindings ≡ bindings }
        ensures round { result.round ≡ round }
    {
        TabOffer { bindings, round }
    }

    /// Its bindings, the terms of which are of its round.
    pub fn bindings(&self) -> &Subst
        ensures bindings { result.now ≡ self.now.bindings }
        ensures of_round { IsOfItsRound self.now.bindings self.now.round }
    {
        &self.bindings
    }

    /// The same offer.
    pub fn copy(&self, alloc: Global) -> Result<TabOffer, AllocError>
        ensures { IfOk result (λ other. other ≡ self.now) }
    {
        let bindings = copy(alloc, &self.bindings)?;
        Ok(TabOffer {
            bindings,
            round: self.round.copy()?,
        })
    }

    /// Its round.
    pub fn round(&self) -> &Shared<Round>
        ensures { result.now ≡ self.now.round }
    {
        &self.round
    }
}
