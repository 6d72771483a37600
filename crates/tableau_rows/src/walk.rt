//! The walk over a tableau.

ghost use Rattle.tab_tree.specs.SiteValue.{IsOfRound};

use crate::item::push_items;
use branch_rules::len;
use std::alloc::{AllocError, Global};
use tab_tree::{Round, Site, branch, root, site_name, split, split_place};

/// How deep the walk goes.
const LEVELS: u32 = 20;

/// Appends the lines of one segment.
fn push_segment(
    alloc: Global,
    out: &mut Vec<u8>,
    round: &Round,
    site: &Site,
) -> Result<(), AllocError> {
    let name = site_name(site);
    let entries = len(branch(site));
    let line = match split_place(site) {
        None => format!(in alloc; "segment {name}: {entries} entries, a leaf\n")?,
        Some(place) => format!(in alloc; "segment {name}: {entries} entries, splits at {place}\n")?,
    };
    out.extend_from_slice(line.as_bytes())?;
    push_items(alloc, out, round, site)
}

/// Appends the lines of a segment and of those below, so many levels deep.
#[cycle(walk)]
fn push_from(
    alloc: Global,
    out: &mut Vec<u8>,
    round: &Round,
    site: &Site,
    levels: u32,
) -> Result<(), AllocError>
    requires { IsOfRound round.now site.now }
{
    push_segment(alloc, out, round, site)?;
    if levels == 0 {
        return Ok(());
    }
    push_below(alloc, out, round, site, levels - 1)
}

/// Appends the lines of the segments below one.
#[cycle(walk)]
fn push_below(
    alloc: Global,
    out: &mut Vec<u8>,
    round: &Round,
    site: &Site,
    levels: u32,
) -> Result<(), AllocError>
    requires { IsOfRound round.now site.now }
{
    let Some((left, right)) = split(alloc, round, site)? else {
        return Ok(());
    };
    push_from(alloc, out, round, &left, levels)?;
    push_from(alloc, out, round, &right, levels)
}

/// Appends the lines of the round's tableau.
pub(crate) fn push_tableau(
    alloc: Global,
    out: &mut Vec<u8>,
    round: &Round,
) -> Result<(), AllocError> {
    let site = root(alloc, round)?;
    push_from(alloc, out, round, &site, LEVELS)
}
