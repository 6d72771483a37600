//! Places in a round's tableau.

ghost use Rattle.std.specs.Prelude.{◌≡◌};
ghost use Rattle.round_offers.specs.Sites.{StandsIn};

use containers::Shared;
use std::marker::Model;
use tab_tree::{Round, Site};

/// A segment of a round's tableau. Contracts see its name and its round.
#[derive(Drop)]
pub struct Place {
    site: Site,
    round: Shared<Round>,
}

impl Model for Place {
    ghost use Rattle.round_offers.specs.Sites.{StandsIn};
    ghost use Rattle.tab_field.specs.PlaceValue.{PlaceValue, place_code};

    ghost Value = { PlaceValue };

    ghost coded = { place_code };

    ghost view = { λ p. record { name = p.site.name; round = p.round } };

    ghost invariant = { λ p. StandsIn p.round p.site };
}

impl Place {
    /// The segment, in the tableau of that round.
    pub fn new(site: Site, round: Shared<Round>) -> Place
        requires { StandsIn round site }
        ensures name { result.name ≡ site.name }
        ensures round { result.round ≡ round }
    {
        Place { site, round }
    }

    /// The segment, one of its round's tableau.
    pub fn site(&self) -> &Site
        ensures name { result.now.name ≡ self.now.name }
        ensures stands { StandsIn self.now.round result.now }
    {
        &self.site
    }
}
