//! A segment as the program holds it.

ghost use Rattle.std.specs.Prelude.{◌≡◌, length};
ghost use Rattle.tab_tree.specs.SiteValue.{segment_of, items_in};
ghost use Rattle.tab_tree.specs.Segments.{items};

use crate::item::TabItems;
use branch_rules::{Branch, TabSteps};
use lit_index::LitIndex;
use std::marker::Model;

/// A segment of a tableau: what one branch does between two splits.
#[derive(Drop)]
pub struct Site {
    pub(crate) name: u128,
    pub(crate) depth: u32,
    /// Where its own entries begin.
    pub(crate) from: u32,
    /// The branch at its end.
    pub(crate) branch: Branch,
    pub(crate) steps: TabSteps,
    /// The principal of its split.
    pub(crate) splits_at: Option<u32>,
    pub(crate) items: TabItems,
    /// The literals of the branch.
    pub(crate) index: LitIndex,
}

impl Model for Site {
    ghost use Rattle.tab_tree.specs.SiteValue.{SiteValue, site_code};

    ghost Value = { SiteValue };

    ghost coded = { site_code };

    ghost use Rattle.tab_tree.specs.SiteView.{value_of, IsKept};

    ghost view = { value_of };

    ghost invariant = { IsKept };
}

/// The name: 1 for the root, and 2b and 2b + 1 for the left and right part of b. It takes no memory.
pub fn site_name(site: &Site) -> u128
    ensures { result ≡ site.now.name }
{
    site.name
}

/// The branch at the segment's end. It takes no memory.
pub fn branch(site: &Site) -> &Branch
    ensures { result.now ≡ site.now.branch }
{
    &site.branch
}

/// The segment's steps in order. It takes no memory.
pub fn steps(site: &Site) -> &TabSteps
    ensures { result.now ≡ site.now.steps }
{
    &site.steps
}

/// The principal of the segment's split, and None exactly where it is a leaf. It takes no memory.
pub fn split_place(site: &Site) -> Option<u32>
    ensures { result ≡ site.now.splits_at }
{
    site.splits_at
}

/// The closing items. It takes no memory.
pub fn pairs(site: &Site) -> &TabItems
    ensures { items_in result.now ≡ items (segment_of site.now) }
{
    &site.items
}

/// How many closing items it has. It takes no memory.
pub fn item_count(site: &Site) -> u64
    ensures { result ≡ length (items (segment_of site.now)) }
{
    pairs(site).len() as u64
}
