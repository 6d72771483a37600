//! Lists of terms that no offer makes equal.
ghost use Rattle.std.specs.Prelude.{◌≡◌, ◌↔◌, IsTrue};
ghost use Rattle.free_terms.specs.View.{term_of, terms_of};
ghost use Rattle.lit_index.specs.Apart.{Clash, AreApart, NoOfferEquates};

use free_terms::{FTerm, FTerms};

/// Whether the lists have different symbols at one position, with no metavariable on the way down to it. Then no offer
/// makes them equal. A bound variable counts as a symbol of its own. Only places that both lists have are looked at, so
/// that one list is longer is no difference.
///
/// It takes no memory. It goes down by calls, two for each level to which both lists go down by equal symbols, so never
/// deeper than the less deep of them nests.
pub fn apart(a: &FTerms, b: &FTerms) -> bool
    ensures exact { IsTrue result ↔ AreApart (terms_of a.now) (terms_of b.now) }
    ensures refused { IsTrue result → NoOfferEquates (terms_of a.now) (terms_of b.now) }
{
    some_clash(a, b)
}

/// The same of the lists, without what it means for offers.
#[cycle(clash)]
fn some_clash(us: &FTerms, vs: &FTerms) -> bool
    ensures { IsTrue result ↔ AreApart (terms_of us.now) (terms_of vs.now) }
{
    let us = us.get().as_slice();
    let vs = vs.get().as_slice();
    for i in 0..us.len().min(vs.len()) {
        if clash(&us[i], &vs[i]) {
            return true;
        }
    }
    false
}

/// The same of two terms.
#[cycle(clash)]
fn clash(a: &FTerm, b: &FTerm) -> bool
    ensures { IsTrue result ↔ Clash (term_of a.now) (term_of b.now) }
{
    match a {
        FTerm::Bound(i) => match b {
            FTerm::Bound(j) => *i != *j,
            FTerm::Meta(_) => false,
            FTerm::Skolem(..) => true,
            FTerm::App(..) => true,
        },
        FTerm::Meta(_) => false,
        FTerm::Skolem(x, us) => match b {
            FTerm::Bound(_) => true,
            FTerm::Meta(_) => false,
            FTerm::Skolem(y, vs) => { if *x == *y { some_clash(us, vs) } else { true } }
            FTerm::App(..) => true,
        },
        FTerm::App(f, us) => match b {
            FTerm::Bound(_) => true,
            FTerm::Meta(_) => false,
            FTerm::Skolem(..) => true,
            FTerm::App(g, vs) => { if *f == *g { some_clash(us, vs) } else { true } }
        },
    }
}
