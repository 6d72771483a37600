//! Finding bindings.

ghost use Rattle.std.specs.Prelude.{◌≡◌, slice_get, option_map};
ghost use Rattle.std.specs.Option.{option_copied};
ghost use Rattle.free_terms.specs.View.{name_of, term_of};
ghost use Rattle.unify.specs.Offers as offers;
ghost use Rattle.unify.specs.View.{offer_of};

use crate::bindings::Binding;
use crate::subst::Subst;
use free_terms::{FTerm, Name};

/// The binding at that place of the list, from 0, and None exactly where the list ends before it.
pub fn binding(s: &Subst, place: u32) -> Option<&Binding>
    ensures { option_copied result ≡ slice_get s.now place }
{
    s.bindings().at(place as usize)
}

/// The term that the metavariable is bound to, and None exactly where it is unbound. Bindings in that
/// term are not applied.
pub fn value_of(s: &Subst, name: Name) -> Option<&FTerm>
    ensures { option_map term_of (option_copied result) ≡ offers.value_of (offer_of s.now) (name_of name) }
{
    s.bindings().value(name)
}
