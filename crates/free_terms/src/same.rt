//! Equality of terms.

ghost use Rattle.std.specs.Prelude.{◌≡◌, ◌↔◌, IsTrue};
ghost use Rattle.free_terms.specs.View.{term_of, terms_of};

use crate::term::{FTerm, FTerms};

/// Whether the two terms are one. It takes no memory.
#[cycle(same)]
pub fn same_term(a: &FTerm, b: &FTerm) -> bool
    ensures { IsTrue result ↔ (term_of a.now ≡ term_of b.now) }
{
    match a {
        FTerm::Bound(i) => match b {
            FTerm::Bound(j) => *i == *j,
            FTerm::Meta(_) | FTerm::Skolem(..) | FTerm::App(..) => false,
        },
        FTerm::Meta(x) => match b {
            FTerm::Meta(y) => *x == *y,
            FTerm::Bound(_) | FTerm::Skolem(..) | FTerm::App(..) => false,
        },
        FTerm::Skolem(x, us) => match b {
            FTerm::Skolem(y, vs) => *x == *y && same_terms(us, vs),
            FTerm::Bound(_) | FTerm::Meta(_) | FTerm::App(..) => false,
        },
        FTerm::App(f, us) => match b {
            FTerm::App(g, vs) => *f == *g && same_terms(us, vs),
            FTerm::Bound(_) | FTerm::Meta(_) | FTerm::Skolem(..) => false,
        },
    }
}

#[cycle(same)]
fn same_terms(us: &FTerms, vs: &FTerms) -> bool
    ensures { IsTrue result ↔ (terms_of us.now ≡ terms_of vs.now) }
{
    let us = us.get().as_slice();
    let vs = vs.get().as_slice();
    if us.len() != vs.len() {
        return false;
    }
    for i in 0..us.len() {
        if !same_term(&us[i], &vs[i]) {
            return false;
        }
    }
    true
}
