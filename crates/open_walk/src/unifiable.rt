//! Whether some offer equates an item of a segment.

ghost use Rattle.std.specs.Prelude.{◌<◌, ◌↔◌, length, IsTrue, IfOk};
ghost use Rattle.free_terms.specs.View.{terms_of};
ghost use Rattle.tab_tree.specs.Segments.{items};
ghost use Rattle.tab_tree.specs.SiteValue.{segment_of};
ghost use Rattle.open_walk.specs.Unifiability.{AreUnifiable, IsUnifiable};
ghost use Rattle.open_walk.specs.Walk.{HasUnifiable};

use lit_index::apart;
use std::alloc::{AllocError, Global};
use tab_tree::{Opposites, Site, arguments, item_count};
use unify::{empty, unify};

/// Whether some offer makes the arguments equal. Arguments that no offer makes equal are mostly told apart before any
/// memory is taken.
fn are_unifiable(alloc: Global, two: Opposites<'_>) -> Result<bool, AllocError>
    ensures { IfOk result (λ is. IsTrue is
        ↔ AreUnifiable (terms_of two.entry.atom.now) (terms_of two.entry.negated.now)) }
{
    if two.atom.get().len() != two.negated.get().len() {
        return Ok(false);
    }
    if apart(two.atom, two.negated) {
        return Ok(false);
    }
    match unify(alloc, &empty(alloc), two.atom, two.negated)? {
        Some(_) => Ok(true),
        None => Ok(false),
    }
}

/// Whether some offer equates the item of that number, which exists.
fn is_unifiable(alloc: Global, site: &Site, item: u64) -> Result<bool, AllocError>
    requires { item < length (items (segment_of site.now)) }
    ensures { IfOk result (λ is. IsTrue is ↔ IsUnifiable (segment_of site.now) item) }
{
    match arguments(site, item) {
        None => Ok(true),
        Some(two) => are_unifiable(alloc, two),
    }
}

/// Whether some offer equates an item of the segment.
pub(crate) fn has_unifiable(alloc: Global, site: &Site) -> Result<bool, AllocError>
    ensures { IfOk result (λ is. IsTrue is ↔ HasUnifiable (segment_of site.now)) }
{
    for item in 0..item_count(site) {
        if is_unifiable(alloc, site, item)? {
            return Ok(true);
        }
    }
    Ok(false)
}
