//! Offers.

ghost use Rattle.std.specs.Prelude.{◌≡◌, ◌≤◌, [], IfOk};
ghost use Rattle.unify.specs.Nesting.{nesting_of, most_nested};
ghost use Rattle.unify.specs.Offers.{IsOffer};
ghost use Rattle.unify.specs.View.{offer_of};

use crate::bindings::Bindings;
use std::alloc::{AllocError, Global};
use std::marker::Model;

/// An offer: bindings of distinct metavariables, with no chain of them from one into itself, the terms of
/// which nest no deeper together than a fixed limit.
#[derive(Drop)]
pub struct Subst {
    bindings: Bindings,
}

impl Model for Subst {
    ghost use Rattle.std.specs.Prelude.{List, ◌≤◌};
    ghost use Rattle.unify.specs.Nesting.{nesting_of, most_nested};
    ghost use Rattle.unify.specs.Offers.{IsOffer};
    ghost use Rattle.unify.specs.View.{offer_of};
    ghost use Rattle.unify.specs.declared.bindings.Binding.{Binding};
    ghost use Rattle.unify.specs.contracts.bindings.Binding as binding;
    ghost use Rattle.std.specs.Coded.{coded_list};

    ghost Value = { List Binding };

    ghost coded = { coded_list binding.the_row.coded };

    ghost view = { λ s. s.bindings };

    ghost invariant = { λ s. IsOffer (offer_of s.bindings) × (nesting_of (offer_of s.bindings) ≤ most_nested) };
}

impl Subst {
    /// The offer of these bindings.
    pub(crate) fn of(bindings: Bindings) -> Subst
        requires offer { IsOffer (offer_of bindings) }
        requires nested { nesting_of (offer_of bindings) ≤ most_nested }
        ensures { result ≡ bindings }
    {
        Subst { bindings }
    }

    pub(crate) fn bindings(&self) -> &Bindings
        ensures list { result.now ≡ self.now }
        ensures offer { IsOffer (offer_of self.now) }
        ensures nested { nesting_of (offer_of self.now) ≤ most_nested }
    {
        &self.bindings
    }
}

/// The offer without bindings.
pub fn empty(alloc: Global) -> Subst
    ensures { result ≡ [] }
{
    Subst::of(Bindings::new(alloc))
}

/// The same offer. Its terms are shared.
pub fn copy(alloc: Global, s: &Subst) -> Result<Subst, AllocError>
    ensures { IfOk result (λ other. other ≡ s.now) }
{
    Ok(Subst::of(s.bindings().copy(alloc)?))
}
