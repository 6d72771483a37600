//! The walk over a closed tree that lists the translation's steps in preorder.

ghost use Rattle.std.specs.Prelude.{◌≡◌, ◌+◌, ◌*◌, ◌≤◌, ◌++◌, ◌∷◌, [], List};
ghost use Rattle.std.specs.Prelude.{length, map, option_to_list, slice_get, take, IfOk, OnOk};
ghost use Rattle.free_terms.specs.Free as free;
ghost use Rattle.unify.specs.Offers.{Offer};
ghost use Rattle.branch_rules.specs.BranchValue.{branch_of};
ghost use Rattle.branch_rules.specs.Steps.{done_by};
ghost use Rattle.tab_tree.specs.ClosedTree as tree;
ghost use Rattle.tab_tree.specs.ClosingView.{closed_tree_of, item_or_first};
ghost use Rattle.tab_tree.specs.Items as spec;
ghost use Rattle.tab_tree.specs.Segments.{items};
ghost use Rattle.tab_tree.specs.SiteValue.{item_of, segment_of};
ghost use Rattle.translation.specs.StepTree.{or_zero};
ghost use Rattle.deskolem.specs.Lines.{rules_of_lines, symbols_of};
ghost use Rattle.deskolem.specs.Walked as walked;
ghost use Rattle.deskolem.specs.Walking.{IsStanding, Walks, WalksFork, WalksFrom, WalksSteps};
ghost use Rattle.deskolem.specs.Walking.{closing_line, closing_rules};

use crate::answer::GsError;
use crate::growth::side_at;
use crate::line::{Closing, Closings, Line};
use crate::standing::{Walk, append, place_in, put};
use crate::stepping::walk_step;
use containers::Items;
use std::alloc::{AllocError, Global};
use tab_tree::{ClosedTree, Item, Site, branch, pairs, split_place, steps};

/// Whether the entry is among the first ones, if one is given.
fn is_there(newest: Option<u32>, entries: usize) -> bool
    ensures { result ≡ walked.is_there newest entries }
{
    match newest {
        Some(newest) => (newest as usize) < entries,
        None => false,
    }
}

fn note(closings: &mut Closings, found: Option<Closing>) -> Result<(), AllocError>
    ensures { OnOk result (closings.new ≡ closings.old ++ option_to_list found) }
{
    if let Some(closing) = found {
        closings.push(closing)?;
    }
    Ok(())
}

/// The lines of a segment's steps, up to the one that appended the entry, if one is given. The closings are to follow
/// behind the rest, the last one first.
fn walk_steps(
    alloc: Global,
    walk: &mut Walk,
    site: &Site,
    newest: Option<u32>,
) -> Result<Closings, GsError>
    requires { IsStanding walk.old }
    ensures walked { WalksSteps walk.old (branch_of site.now.branch) (map done_by site.now.steps) newest
        walk.new result }
    ensures standing { IfOk result (λ _. IsStanding walk.new) }
    ensures kept { IfOk result (λ _. take (length walk.old.places.items) walk.new.places.items
        ≡ walk.old.places.items) }
    ensures left { IfOk result (λ _. walk.new.left ≤ walk.old.left) }
{
    let mut closings = Items::new(alloc);
    for step in steps(site).as_slice() {
        if is_there(newest, walk.places.len()) {
            return Ok(closings);
        }
        match walk_step(walk, branch(site), step) {
            Ok(found) => note(&mut closings, found)?,
            Err(e) => return Err(e),
        }
    }
    Ok(closings)
}

/// Adds the closings, which were counted before, the last one first.
fn close_all(walk: &mut Walk, closings: Closings) -> Result<(), AllocError>
    requires { IsStanding walk.old }
    ensures rules { OnOk result ((s : Offer) (ys : List free.Name)
        → rules_of_lines s ys walk.new.lines ≡ rules_of_lines s ys walk.old.lines ++ closing_rules closings) }
    ensures symbols { OnOk result (symbols_of walk.new.lines ≡ symbols_of walk.old.lines) }
    ensures standing { OnOk result (IsStanding walk.new) }
    ensures places { walk.new.places.items ≡ walk.old.places.items }
    ensures left { walk.new.left ≡ walk.old.left }
    ensures len { walk.new.len ≡ walk.old.len }
{
    let mut closings = closings;
    while let Some(Closing { atom, negated }) = closings.pop() {
        walk.lines.push(Line::Close { atom, negated })?;
    }
    Ok(())
}

/// The place of the item's newest formula.
fn newest(item: Item) -> u32
    ensures { result ≡ spec.newest (item_of item) }
{
    match item {
        Item::Pair { atom, negated } => atom.max(negated),
        Item::FalseAt { place } => place,
        Item::NotTrue { place } => place,
    }
}

/// The site's item of that number.
fn item_at(site: &Site, item: u64) -> Item
    ensures { item_of result ≡ item_or_first (slice_get (items (segment_of site.now)) item) }
{
    match pairs(site).get(item as usize) {
        Some(item) => *item,
        None => Item::FalseAt { place: 0 },
    }
}

/// The line of the item, whose formulas stand at these places of the proof's list.
fn line_of(places: &[u32], item: Item) -> Line
    ensures { result ≡ closing_line places.now (item_of item) }
{
    match item {
        Item::Pair { atom, negated } => Line::Close {
            atom: place_in(places, atom),
            negated: place_in(places, negated),
        },
        Item::FalseAt { place } => Line::FalseAt {
            place: place_in(places, place),
        },
        Item::NotTrue { place } => Line::NotTrue {
            place: place_in(places, place),
        },
    }
}

/// The lines of a segment that closes by its item of that number.
fn walk_leaf(alloc: Global, walk: &mut Walk, site: &Site, item: u64) -> Result<(), GsError>
    requires { IsStanding walk.old }
    ensures walks { Walks (tree.closed (segment_of site.now)
        (item_or_first (slice_get (items (segment_of site.now)) item))) walk.old walk.new result }
    ensures standing { OnOk result (IsStanding walk.new) }
    ensures kept { OnOk result (take (length walk.old.places.items) walk.new.places.items ≡ walk.old.places.items) }
    ensures left { OnOk result (walk.new.left ≤ walk.old.left) }
{
    let item = item_at(site, item);
    let closings = match walk_steps(alloc, walk, site, Some(newest(item))) {
        Ok(closings) => closings,
        Err(e) => return Err(e),
    };
    let line = line_of(walk.places.as_slice(), item);
    match put(walk, line, 1) {
        Ok(()) => {}
        Err(e) => return Err(e),
    }
    close_all(walk, closings)?;
    Ok(())
}

/// The principal of the site's split.
fn principal_of(site: &Site) -> u32
    ensures { result ≡ or_zero site.now.splits_at }
{
    match split_place(site) {
        Some(place) => place,
        None => 0,
    }
}

/// The lines of one side of a split, which appends so many entries. The walk stands then where it stood before.
#[cycle(walk)]
fn walk_side(alloc: Global, walk: &mut Walk, parts: u32, tree: &ClosedTree) -> Result<(), GsError>
    requires standing { IsStanding walk.old }
    requires fits { walk.old.len + parts + 2 * walk.old.left ≤ 4294967294 }
    ensures walks { WalksFrom parts (closed_tree_of tree.now) walk.old walk.new result }
    ensures standing { OnOk result (IsStanding walk.new) }
    ensures places { OnOk result (walk.new.places.items ≡ walk.old.places.items) }
    ensures len { OnOk result (walk.new.len ≡ walk.old.len) }
    ensures left { OnOk result (walk.new.left ≤ walk.old.left) }
{
    let entries = walk.places.len();
    let len = walk.len;
    append(walk, parts)?;
    match walk_tree(alloc, walk, tree) {
        Ok(()) => {}
        Err(e) => return Err(e),
    }
    walk.places.truncate(entries);
    walk.len = len;
    Ok(())
}

/// The lines of a segment's split, and of both of its sides. The walk stands then where it stood before.
#[cycle(walk)]
fn walk_sides(
    alloc: Global,
    walk: &mut Walk,
    site: &Site,
    left: &ClosedTree,
    right: &ClosedTree,
) -> Result<(), GsError>
    requires { IsStanding walk.old }
    ensures walks { WalksFork (branch_of site.now.branch) (or_zero site.now.splits_at)
        (closed_tree_of left.now) (closed_tree_of right.now) walk.old walk.new result }
    ensures standing { OnOk result (IsStanding walk.new) }
    ensures places { OnOk result (walk.new.places.items ≡ walk.old.places.items) }
    ensures left { OnOk result (walk.new.left ≤ walk.old.left) }
{
    let principal = principal_of(site);
    let place = place_in(walk.places.as_slice(), principal);
    let parts = side_at(branch(site), principal);
    match put(walk, Line::Beta { place }, 1) {
        Ok(()) => {}
        Err(e) => return Err(e),
    }
    match walk_side(alloc, walk, parts, left) {
        Ok(()) => {}
        Err(e) => return Err(e),
    }
    walk_side(alloc, walk, parts, right)
}

/// The lines of a segment that splits, and of what is below it.
#[cycle(walk)]
fn walk_fork(
    alloc: Global,
    walk: &mut Walk,
    site: &Site,
    left: &ClosedTree,
    right: &ClosedTree,
) -> Result<(), GsError>
    requires { IsStanding walk.old }
    ensures walks { Walks (tree.forked (segment_of site.now) (closed_tree_of left.now) (closed_tree_of right.now))
        walk.old walk.new result }
    ensures standing { OnOk result (IsStanding walk.new) }
    ensures kept { OnOk result (take (length walk.old.places.items) walk.new.places.items ≡ walk.old.places.items) }
    ensures left { OnOk result (walk.new.left ≤ walk.old.left) }
{
    let closings = match walk_steps(alloc, walk, site, None) {
        Ok(closings) => closings,
        Err(e) => return Err(e),
    };
    match walk_sides(alloc, walk, site, left, right) {
        Ok(()) => {}
        Err(e) => return Err(e),
    }
    close_all(walk, closings)?;
    Ok(())
}

/// The lines of a closed tree. It calls itself as often as a branch has splits, 120 times at most.
#[cycle(walk)]
pub(crate) fn walk_tree(alloc: Global, walk: &mut Walk, tree: &ClosedTree) -> Result<(), GsError>
    requires { IsStanding walk.old }
    ensures walks { Walks (closed_tree_of tree.now) walk.old walk.new result }
    ensures standing { OnOk result (IsStanding walk.new) }
    ensures kept { OnOk result (take (length walk.old.places.items) walk.new.places.items ≡ walk.old.places.items) }
    ensures left { OnOk result (walk.new.left ≤ walk.old.left) }
{
    match tree {
        ClosedTree::Leaf { site, item } => walk_leaf(alloc, walk, site, *item),
        ClosedTree::Fork { site, left, right } => {
            walk_fork(alloc, walk, site, left.get(), right.get())
        }
    }
}
