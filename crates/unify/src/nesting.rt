//! How deep terms nest.

ghost use Rattle.std.specs.Prelude.{◌≡◌, ◌≤◌};
ghost use Rattle.free_terms.specs.View.{term_of, terms_of};
ghost use Rattle.unify.specs.Nesting.{nesting, nesting_below, IsWithin};

use free_terms::{FTerm, FTerms};

/// How deep the bound terms of an offer may nest together. A walk over a term with all bindings applied
/// goes no deeper than this below the term's own depth.
pub const MOST_NESTED: u32 = 6000;

/// How deep the term nests, and None exactly where that is more than `most`.
#[cycle(nesting)]
pub(crate) fn nested_within(t: &FTerm, most: u32) -> Option<u32>
    ensures { IsWithin most (nesting (term_of t.now)) result }
{
    match t {
        FTerm::Bound(_) | FTerm::Meta(_) => Some(0),
        FTerm::Skolem(_, us) | FTerm::App(_, us) => nested_below(us, most),
    }
}

/// The same of a symbol's arguments, seen from the symbol.
#[cycle(nesting)]
fn nested_below(us: &FTerms, most: u32) -> Option<u32>
    ensures { IsWithin most (nesting_below (terms_of us.now)) result }
{
    let us = us.get().as_slice();
    if us.is_empty() {
        return Some(0);
    }
    if most == 0 {
        return None;
    }
    let mut deepest = 0;
    for u in us {
        let nested = nested_within(u, most - 1)?;
        deepest = deepest.max(nested + 1);
    }
    Some(deepest)
}
