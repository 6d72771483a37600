//! Whether an offer makes terms one, and whether it entails another.

ghost use Rattle.std.specs.Prelude.{◌≡◌, ◌↔◌, IsTrue, Some, slice_get};
ghost use Rattle.free_terms.specs.Free as free;
ghost use Rattle.free_terms.specs.View.{name_of, term_of, terms_of};
ghost use Rattle.unify.specs.Offers as offers;
ghost use Rattle.unify.specs.Offers.{EquatesAll, Equates, IsOffer};
ghost use Rattle.unify.specs.View.{offer_of};

use crate::bindings::{Binding, Bindings};
use crate::equality::same_binding;
use crate::follow::{head, is_metavar};
use crate::subst::Subst;
use free_terms::{FTerm, FTerms};

/// Whether the offer makes two lists of terms one. It takes no memory, and stack for each level of the
/// terms with all bindings applied.
pub fn equates(s: &Subst, a: &FTerms, b: &FTerms) -> bool
    ensures { IsTrue result ↔ EquatesAll (offer_of s.now) (terms_of a.now) (terms_of b.now) }
{
    makes_all_one(s.bindings(), a, b)
}

/// Whether the first offer makes both sides of each binding of the second one term. It takes no memory.
/// Offers that have their first bindings in common differ in the last ones, which are looked at first.
pub fn entails(s: &Subst, other: &Subst) -> bool
    ensures { IsTrue result ↔ offers.Entails (offer_of s.now) (offer_of other.now) }
{
    let s = s.bindings();
    let other = other.bindings().as_slice();
    let mut left = other.len();
    while left > 0 {
        left -= 1;
        if !keeps(s, left, &other[left]) {
            return false;
        }
    }
    true
}

/// Whether the bindings make both sides of that binding one term. A binding that is theirs, at that
/// place, is passed over.
fn keeps(s: &Bindings, place: usize, b: &Binding) -> bool
    requires { IsOffer (offer_of s.now) }
    ensures { IsTrue result ↔ Equates (offer_of s.now) (free.metavar (name_of b.now.name)) (term_of b.now.term) }
{
    if has_at(s, place, b) {
        return true;
    }
    makes_one(s, &FTerm::Meta(b.name), &b.term)
}

/// Whether the binding stands at that place of the list.
fn has_at(s: &Bindings, place: usize, b: &Binding) -> bool
    ensures { IsTrue result ↔ (slice_get s.now place ≡ Some b.now) }
{
    match s.at(place) {
        Some(own) => same_binding(own, b),
        None => false,
    }
}

/// Whether the bindings make two terms one.
#[cycle(same)]
fn makes_one(s: &Bindings, a: &FTerm, b: &FTerm) -> bool
    requires { IsOffer (offer_of s.now) }
    ensures { IsTrue result ↔ Equates (offer_of s.now) (term_of a.now) (term_of b.now) }
{
    if let FTerm::Meta(x) = a {
        if is_metavar(b, *x) {
            return true;
        }
    }
    match head(s, a) {
        FTerm::Bound(i) => match head(s, b) {
            FTerm::Bound(j) => *i == *j,
            FTerm::Meta(_) | FTerm::Skolem(..) | FTerm::App(..) => false,
        },
        FTerm::Meta(x) => is_metavar(head(s, b), *x),
        FTerm::Skolem(x, us) => match head(s, b) {
            FTerm::Skolem(y, vs) => *x == *y && makes_all_one(s, us, vs),
            FTerm::Bound(_) | FTerm::Meta(_) | FTerm::App(..) => false,
        },
        FTerm::App(f, us) => match head(s, b) {
            FTerm::App(g, vs) => *f == *g && makes_all_one(s, us, vs),
            FTerm::Bound(_) | FTerm::Meta(_) | FTerm::Skolem(..) => false,
        },
    }
}

#[cycle(same)]
fn makes_all_one(s: &Bindings, us: &FTerms, vs: &FTerms) -> bool
    requires { IsOffer (offer_of s.now) }
    ensures { IsTrue result ↔ EquatesAll (offer_of s.now) (terms_of us.now) (terms_of vs.now) }
{
    let us = us.get().as_slice();
    let vs = vs.get().as_slice();
    if us.len() != vs.len() {
        return false;
    }
    for i in 0..us.len() {
        if !makes_one(s, &us[i], &vs[i]) {
            return false;
        }
    }
    true
}
