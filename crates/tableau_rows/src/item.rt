//! The closing items of a segment.

ghost use Rattle.std.specs.Prelude.{◌<◌, length};
ghost use Rattle.tab_tree.specs.Segments.{items};
ghost use Rattle.tab_tree.specs.SiteValue.{segment_of};

use closing_tree::closed_tree;
use std::alloc::{AllocError, Global};
use tab_tree::{Round, Site, arguments, item_count, pairs};
use unify::{Subst, empty, unify};

/// The most general offer that makes the item closed, or None where there is none.
fn offer_of(alloc: Global, site: &Site, item: u64) -> Result<Option<Subst>, AllocError>
    requires { item < length (items (segment_of site.now)) }
{
    let Some(two) = arguments(site, item) else {
        return Ok(Some(empty(alloc)));
    };
    if two.atom.get().len() != two.negated.get().len() {
        return Ok(None);
    }
    unify(alloc, &empty(alloc), two.atom, two.negated)
}

/// What the offer of the item does to the round's tableau.
fn effect(alloc: Global, round: &Round, site: &Site, item: u64) -> Result<&'static str, AllocError>
    requires { item < length (items (segment_of site.now)) }
{
    let Some(offer) = offer_of(alloc, site, item)? else {
        return Ok("closed by no offer");
    };
    match closed_tree(alloc, round, &offer)? {
        None => Ok("closed by an offer"),
        Some(_) => Ok("closed by an offer that closes the tableau"),
    }
}

/// Appends a line for each closing item of the segment.
pub(crate) fn push_items(
    alloc: Global,
    out: &mut Vec<u8>,
    round: &Round,
    site: &Site,
) -> Result<(), AllocError> {
    for item in 0..item_count(site) {
        let Some(shape) = pairs(site).get(item as usize) else {
            continue;
        };
        let effect = effect(alloc, round, site, item)?;
        let line = format!(in alloc; "  {shape:?} {effect}\n")?;
        out.extend_from_slice(line.as_bytes())?;
    }
    Ok(())
}
