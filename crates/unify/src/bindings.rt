//! Bindings of distinct metavariables, found by name.

ghost use Rattle.std.specs.Prelude.{◌≡◌, ◌≤◌, ◌++◌, ◌∷◌, [], None, length, slice_get, option_map, IfOk, IfSome};
ghost use Rattle.std.specs.Option.{option_copied};
ghost use Rattle.free_terms.specs.View.{name_of, term_of};
ghost use Rattle.free_terms.specs.declared.term.FTerm.{size-FTerm};
ghost use Rattle.unify.specs.Nesting.{nesting_of, most_nested};
ghost use Rattle.unify.specs.Offers.{value_of};
ghost use Rattle.unify.specs.View.{offer_of};
ghost use Rattle.unify.specs.Weight.{weight};

use crate::nesting::{MOST_NESTED, nested_within};
use free_terms::{FTerm, Name};
use std::alloc::{AllocError, Global};
use std::collections::HashMap;
use std::marker::Model;

/// A metavariable and the term that stands for it.
#[derive(Drop)]
pub struct Binding {
    pub name: Name,
    pub term: FTerm,
}

/// Bindings in their order, the places of their names, and how deep their terms nest together.
#[derive(Drop)]
pub(crate) struct Bindings {
    list: Vec<Binding>,
    places: HashMap<Name, usize>,
    nested: u32,
}

impl Model for Bindings {
    ghost use Rattle.std.specs.Prelude.{List};
    ghost use Rattle.std.specs.Coded.{coded_list};
    ghost use Rattle.unify.specs.Index.{IsCounted, IsIndex};
    ghost use Rattle.unify.specs.declared.bindings.Binding.{Binding};
    ghost use Rattle.unify.specs.contracts.bindings.Binding as binding;

    ghost Value = { List Binding };

    ghost coded = { coded_list binding.the_row.coded };

    ghost view = { λ s. s.list.items };

    ghost invariant = { λ s. IsIndex s.list.items s.places × IsCounted s.list.items s.nested };
}

impl Bindings {
    pub(crate) fn new(alloc: Global) -> Bindings
        ensures { result ≡ [] }
    {
        Bindings {
            list: Vec::new(alloc),
            places: HashMap::new(alloc),
            nested: 0,
        }
    }

    pub(crate) fn as_slice(&self) -> &[Binding]
        ensures list { result.now ≡ self.now }
        ensures nested { nesting_of (offer_of self.now) ≤ most_nested }
    {
        &self.list
    }

    pub(crate) fn len(&self) -> usize
        ensures { result ≡ length self.now }
    {
        self.list.len()
    }

    pub(crate) fn at(&self, place: usize) -> Option<&Binding>
        ensures { option_copied result ≡ slice_get self.now place }
    {
        self.list.get(place)
    }

    /// The term that the first binding of the name gives. Walks over terms call it, and keep out of their own
    /// stack what it takes.
    #[inline(never)]
    pub(crate) fn value(&self, name: Name) -> Option<&FTerm>
        ensures value { option_map term_of (option_copied result) ≡ value_of (offer_of self.now) (name_of name) }
        ensures bounded { IfSome result (λ t. size-FTerm t.now ≤ weight self.now) }
    {
        match self.places.get(&name) {
            Some(place) => match self.at(*place) {
                Some(b) => Some(&b.term),
                None => None,
            },
            None => None,
        }
    }

    /// These bindings, and then one of a name that they leave open. Terms that nest too deep together are
    /// want of memory.
    pub(crate) fn with(self, binding: Binding) -> Result<Bindings, AllocError>
        requires { value_of (offer_of self) (name_of binding.name) ≡ None }
        ensures list { IfOk result (λ s. s ≡ self ++ binding ∷ []) }
        ensures nested { IfOk result (λ s. nesting_of (offer_of s) ≤ most_nested) }
    {
        let Bindings {
            mut list,
            mut places,
            nested,
        } = self;
        let Some(more) = nested_within(&binding.term, MOST_NESTED - nested) else {
            return Err(AllocError);
        };
        places.insert(binding.name, list.len())?;
        list.push(binding)?;
        Ok(Bindings {
            list,
            places,
            nested: nested + more,
        })
    }

    /// The same bindings. Their terms are shared.
    pub(crate) fn copy(&self, alloc: Global) -> Result<Bindings, AllocError>
        ensures { IfOk result (λ s. s ≡ self.now) }
    {
        let mut list = Vec::with_capacity(alloc, self.list.len())?;
        for b in &self.list {
            let term = b.term.copy()?;
            list.push(Binding { name: b.name, term })?;
        }
        Ok(Bindings {
            list,
            places: self.places.clone()?,
            nested: self.nested,
        })
    }
}
