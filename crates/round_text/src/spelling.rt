//! The offers of a round, over a table of symbols.

ghost use Rattle.std.specs.Prelude.{◌≡◌};
ghost use Rattle.round_text.specs.Names.{AreInLines};

use fol_core::Symbols;
use history_text::OfferSpelling;
use offer_text::spell_offer;
use round_offers::TabOffer;
use std::alloc::AllocError;

/// Writes offers over a table of symbols.
#[derive(Drop)]
pub struct RoundSpelling<'a> {
    symbols: &'a Symbols,
    ghost names: { AreInLines symbols.now.functions },
}

impl<'a> RoundSpelling<'a> {
    /// The spelling over these symbols.
    pub fn new(symbols: &'a Symbols) -> RoundSpelling<'a>
        ensures { result.symbols.now ≡ symbols.now }
    {
        symbols.keeps();
        RoundSpelling { symbols }
    }
}

impl<'a> OfferSpelling for RoundSpelling<'a> {
    ghost use Rattle.unify.specs.View.{offer_of};
    ghost use Rattle.offer_text.specs.Text.{offer_text};
    ghost use Rattle.round_text.specs.Lines.{offer_in_line};

    type Offer = TabOffer;

    ghost text = { λ f s. offer_text f.symbols.now.functions (offer_of s.bindings) };

    fn spell(&self, offer: &TabOffer, out: &mut Vec<u8>) -> Result<(), AllocError> {
        spell_offer(self.symbols, offer.bindings(), out)
    }

    ghost line = { λ f s. offer_in_line f.symbols.now.functions f.names (offer_of s.bindings) };
}
