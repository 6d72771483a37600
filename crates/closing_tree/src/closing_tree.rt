//! The closed tree of an offer.

ghost use Rattle.std.specs.Prelude.{◌≡◌, ◌<◌, ◌≤◌, IfOk, MatchOption, option_map, slice_get};
ghost use Rattle.unify.specs.View.{offer_of};
ghost use Rattle.tab_tree.specs.ClosedTree as spec;
ghost use Rattle.tab_tree.specs.ClosedTree.{NoneClosed};
ghost use Rattle.tab_tree.specs.Segments.{items};
ghost use Rattle.tab_tree.specs.ClosingView.{closed_tree_of, item_or_first};
ghost use Rattle.closing_tree.specs.Answer.{IsAnswer, IsAnswerFrom, AreBelow, AreBoth, FirstAt, two_trees};
ghost use Rattle.tab_tree.specs.SiteValue.{segment_of, IsOfRound};

use containers::Boxed;
use std::alloc::{AllocError, Global};
use tab_tree::{ClosedTree, Round, Site, is_closed_by, item_count, root, split};
use unify::Subst;

/// The number of the first item that the offer equates.
#[tactic(auto, using(crate::proofs::ClosedTrees::none_at_all))]
fn first_closed(site: &Site, s: &Subst) -> Option<u64>
    ensures { MatchOption result (NoneClosed (offer_of s.now) (segment_of site.now))
        (λ n. FirstAt (offer_of s.now) (segment_of site.now) n) }
{
    for item in 0..item_count(site) {
        if is_closed_by(site, item, s) {
            return Some(item);
        }
    }
    None
}

/// A closed tree behind a pointer.
type BoxedTree = Boxed<ClosedTree>;

/// The closed tree of a segment that closes by the item of that number.
#[tactic(auto, using(tab_tree::proofs::ClosedTreeViews::tree_of_leaf))]
fn leaf(alloc: Global, site: Site, item: u64) -> Result<BoxedTree, AllocError>
    ensures { IfOk result (λ tree. closed_tree_of tree
        ≡ spec.closed (segment_of site) (item_or_first (slice_get (items (segment_of site)) item))) }
{
    Boxed::new(alloc, ClosedTree::Leaf { site, item })
}

/// The closed tree of a segment that splits, and of its parts.
#[tactic(auto, using(tab_tree::proofs::ClosedTreeViews::tree_of_fork))]
fn fork(
    alloc: Global,
    site: Site,
    left: BoxedTree,
    right: BoxedTree,
) -> Result<BoxedTree, AllocError>
    ensures { IfOk result (λ tree. closed_tree_of tree
        ≡ spec.forked (segment_of site) (closed_tree_of left) (closed_tree_of right)) }
{
    Boxed::new(alloc, ClosedTree::Fork { site, left, right })
}

/// The closed tree of the offer from a segment on. It calls itself as often as a branch has splits, 120 times at most:
/// names at least double on the way, and fit 128 bits.
#[cycle(closed)]
#[tactic(auto, using(crate::proofs::ClosedTrees::answers))]
fn closed_from(
    alloc: Global,
    round: &Round,
    site: Site,
    s: &Subst,
) -> Result<Option<BoxedTree>, AllocError>
    requires of_round { IsOfRound round.now site }
    requires named { 0 < site.name }
    ensures { IfOk result (λ found. IsAnswerFrom round.now (segment_of site) (offer_of s.now)
        (option_map closed_tree_of found)) }
{
    if let Some(item) = first_closed(&site, s) {
        return Ok(Some(leaf(alloc, site, item)?));
    }
    match closed_below(alloc, round, &site, s)? {
        None => Ok(None),
        Some((left, right)) => Ok(Some(fork(alloc, site, left, right)?)),
    }
}

/// The closed trees of the offer from the parts of a segment on. None where it is a leaf, or the offer does not solve
/// both.
#[cycle(closed)]
fn closed_below(
    alloc: Global,
    round: &Round,
    site: &Site,
    s: &Subst,
) -> Result<Option<(BoxedTree, BoxedTree)>, AllocError>
    requires of_round { IsOfRound round.now site.now }
    requires named { 0 < site.now.name }
    ensures { IfOk result (λ found. AreBelow round.now (segment_of site.now) (offer_of s.now)
        (option_map two_trees found)) }
{
    match split(alloc, round, site)? {
        None => Ok(None),
        Some((left, right)) => closed_both(alloc, round, left, right, s),
    }
}

/// The closed trees of the offer from these parts on.
#[cycle(closed)]
fn closed_both(
    alloc: Global,
    round: &Round,
    left: Site,
    right: Site,
    s: &Subst,
) -> Result<Option<(BoxedTree, BoxedTree)>, AllocError>
    requires left_of_round { IsOfRound round.now left }
    requires right_of_round { IsOfRound round.now right }
    requires named { (0 < left.name) × (left.name ≤ right.name) }
    ensures { IfOk result (λ found. AreBoth round.now left right (offer_of s.now) (option_map two_trees found)) }
{
    let Some(left) = closed_from(alloc, round, left, s)? else {
        return Ok(None);
    };
    let Some(right) = closed_from(alloc, round, right, s)? else {
        return Ok(None);
    };
    Ok(Some((left, right)))
}

/// The closed tree of the offer: each segment closes by its first item that the offer equates, and one without such an
/// item splits. None exactly where the offer does not close the round's tableau. An error is want of memory.
#[tactic(auto, using(crate::proofs::ClosedTrees::root_answer))]
pub fn closed_tree(
    alloc: Global,
    round: &Round,
    s: &Subst,
) -> Result<Option<Boxed<ClosedTree>>, AllocError>
    ensures { IfOk result (λ found. IsAnswer round.now (offer_of s.now) found) }
{
    let site = root(alloc, round)?;
    closed_from(alloc, round, site, s)
}
