//! How offers are written.

ghost use Rattle.std.specs.Prelude.{◌≡◌, ◌++◌, ℕ, List, OnOk, OnErr};
ghost use Rattle.gs3_text.specs.ProofText.{IsLine};

use nego_laws::field::Offer;
use std::alloc::AllocError;

/// How the offers of a negotiation are written.
pub trait OfferSpelling {
    type Offer: Offer;

    /// The text of an offer.
    ghost text: { Self → Self.Offer → List ℕ };

    /// Appends the text of the offer. After an error `out` is as it was.
    fn spell(&self, offer: &Self::Offer, out: &mut Vec<u8>) -> Result<(), AllocError>
        ensures ok { OnOk result (out.new.items ≡ out.old.items ++ text self.now offer.now) }
        ensures err { OnErr result (out.new.items ≡ out.old.items) };

    /// The text of an offer is in one line.
    ghost line: { (f : Self) (s : Self.Offer) → IsLine (text f s) };
}
