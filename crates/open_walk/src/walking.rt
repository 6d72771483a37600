//! The walk over the segments of a round's tableau.

ghost use Rattle.std.specs.Prelude.{◌≡◌, ◌++◌, ◌∷◌, [], IfOk, OnOk};
ghost use Rattle.tab_tree.specs.SiteValue.{IsOfRound};
ghost use Rattle.open_walk.specs.Visits.{Turns, Starts};
ghost use Rattle.open_walk.specs.Walk.{IsOpenAnswer};

use crate::limit::MOST_SEGMENTS;
use crate::unifiable::has_unifiable;
use containers::Items;
use std::alloc::{AllocError, Global};
use tab_tree::{OpenAnswer, Round, Site, root, site_name, split};

/// Lets the parts of a segment wait, the left one to be visited first.
fn push_parts(waiting: &mut Items<Site>, left: Site, right: Site) -> Result<(), AllocError>
    ensures { OnOk result (waiting.new ≡ (waiting.old ++ right ∷ []) ++ left ∷ []) }
{
    waiting.push(right)?;
    waiting.push(left)
}

/// Visits a segment, the parts of which wait then. Whether it is an open leaf.
fn visit(
    alloc: Global,
    round: &Round,
    site: &Site,
    waiting: &mut Items<Site>,
) -> Result<bool, AllocError>
    requires { IsOfRound round.now site.now }
    ensures { IfOk result (λ found. Turns round.now site.now waiting.old waiting.new found) }
{
    if has_unifiable(alloc, site)? {
        return Ok(false);
    }
    match split(alloc, round, site)? {
        None => Ok(true),
        Some((left, right)) => {
            push_parts(waiting, left, right)?;
            Ok(false)
        }
    }
}

/// The first segment, which waits.
fn first(alloc: Global, round: &Round) -> Result<Items<Site>, AllocError>
    ensures { IfOk result (λ waiting. Starts round.now waiting) }
{
    let mut waiting = Items::new(alloc);
    waiting.push(root(alloc, round)?)?;
    Ok(waiting)
}

/// What the walk of the round's tableau answers: the name of its first open leaf, or that it has none, or that it was
/// cut and has none before. A segment is kept until it is visited, and with it the right parts above it that wait: at
/// most 121 at a time. An error is want of memory.
pub fn report_open(alloc: Global, round: &Round) -> Result<OpenAnswer, AllocError>
    ensures { IfOk result (λ answer. IsOpenAnswer round.now answer) }
{
    let mut waiting = first(alloc, round)?;
    for _visits in 0..MOST_SEGMENTS {
        let Some(site) = waiting.pop() else {
            return Ok(OpenAnswer::Conflict);
        };
        if visit(alloc, round, &site, &mut waiting)? {
            return Ok(OpenAnswer::Branch(site_name(&site)));
        }
    }
    if waiting.is_empty() {
        return Ok(OpenAnswer::Conflict);
    }
    Ok(OpenAnswer::Unsearched)
}
