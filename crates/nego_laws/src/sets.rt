//! A small field whose offers are sets of numbers.

ghost use Rattle.std.specs.Prelude.{◌≡◌, [], ◌∷◌, option_copied};
ghost use Rattle.nego_laws.specs.Sets.{site_named, set_tree};
ghost use Rattle.nego_laws.specs.SetLaws.{set_laws};

use crate::field::{Field, Offer};
use containers::{Items, Shared};
use std::alloc::AllocError;

/// A site: whether it has parts, and the set that each of its items needs.
#[derive(Drop)]
pub struct SetSite {
    pub parted: bool,
    pub needs: Items<u64>,
}

/// The sites of a tree in the order of their names, from 1 on. A name that the tree does not have has a site without
/// items.
#[derive(Drop)]
pub struct SetTree {
    pub sites: Items<SetSite>,
}

/// A set of numbers below 64, as bits.
#[derive(Drop)]
pub struct SetOffer {
    pub set: u64,
    pub tree: Shared<SetTree>,
}

impl Offer for SetOffer {
    ghost tree = { λ s. set_tree s.tree };
}

/// A place in the tree.
#[derive(Drop)]
pub struct SetPlace {
    pub name: u128,
    pub tree: Shared<SetTree>,
}

/// Offers are sets, and one entails another where it has all of its numbers.
#[derive(Drop)]
pub struct SetField {
    pub tree: Shared<SetTree>,
}

/// The site of a name, in constant time.
fn find(sites: &Items<SetSite>, name: u128) -> Option<&SetSite>
    ensures { option_copied result ≡ site_named sites.now name }
{
    if name == 0 || name > sites.len() as u128 {
        return None;
    }
    sites.get((name - 1) as usize)
}

impl Field for SetField {
    type Offer = SetOffer;

    type Site = SetPlace;

    ghost tree = { λ f. set_tree f.tree };

    ghost around = { λ site. set_tree site.tree };

    ghost named = { λ site. site.name };

    fn root(&self) -> Result<SetPlace, AllocError> {
        Ok(SetPlace {
            name: 1,
            tree: self.tree.copy()?,
        })
    }

    fn name(&self, site: &SetPlace) -> u128 {
        site.name
    }

    fn free(&self) -> Result<SetOffer, AllocError> {
        Ok(SetOffer {
            set: 0,
            tree: self.tree.copy()?,
        })
    }

    fn items(&self, site: &SetPlace) -> u64 {
        match find(&self.tree.get().sites, site.name) {
            None => 0,
            Some(found) => found.needs.len() as u64,
        }
    }

    fn has_parts(&self, site: &SetPlace) -> bool {
        let tree = self.tree.get();
        match find(&tree.sites, site.name) {
            None => false,
            Some(found) => {
                let all = tree.sites.len() as u128;
                found.parted && site.name < all && 2 * site.name + 1 <= all
            }
        }
    }

    fn attempt(
        &self,
        site: &SetPlace,
        item: u64,
        given: &SetOffer,
    ) -> Result<Option<SetOffer>, AllocError> {
        match find(&self.tree.get().sites, site.name) {
            None => Ok(None),
            Some(found) => Ok(Some(SetOffer {
                set: given.set | found.needs.as_slice()[item as usize],
                tree: self.tree.copy()?,
            })),
        }
    }

    fn parts(&self, site: &SetPlace) -> Result<Option<(SetPlace, SetPlace)>, AllocError> {
        if !self.has_parts(site) {
            return Ok(None);
        }
        let left = SetPlace {
            name: 2 * site.name,
            tree: self.tree.copy()?,
        };
        let right = SetPlace {
            name: 2 * site.name + 1,
            tree: self.tree.copy()?,
        };
        Ok(Some((left, right)))
    }

    fn entails(&self, a: &SetOffer, b: &SetOffer) -> bool {
        a.set | b.set == a.set
    }

    fn same(&self, a: &SetOffer, b: &SetOffer) -> bool {
        a.set == b.set
    }

    ghost laws = { λ f. set_laws f.tree };
}
