//! A counted pointer that contracts see as its value.

ghost use Rattle.std.specs.Prelude.{◌≡◌, IfOk, IfSome};
ghost use Rattle.std.specs.Arc.{arc_value};

use std::alloc::{AllocError, Global};
use std::marker::Model;
use std::sync::Arc;

/// An `Arc` that contracts see as its value: two owners of equal values are equal.
#[derive(Drop)]
pub struct Shared<T> {
    inner: Arc<T, Global>,
}

impl<T> Model for Shared<T> {
    ghost use Rattle.std.specs.Arc.{arc_value};

    ghost Value = { T };

    ghost coded = { T.code };

    ghost view = { λ s. arc_value s.inner };
}

impl<T> Shared<T> {
    pub fn from_arc(inner: Arc<T, Global>) -> Shared<T>
        ensures { result ≡ arc_value inner }
    {
        Shared { inner }
    }

    pub fn get(&self) -> &T
        ensures { result.now ≡ self.now }
    {
        &self.inner
    }

    pub fn as_arc(&self) -> &Arc<T, Global>
        ensures { arc_value result.now ≡ self.now }
    {
        &self.inner
    }

    /// The value, of its last owner; None where there are others.
    pub fn into_inner(self) -> Option<T>
        ensures { IfSome result (λ value. value ≡ self) }
    {
        let Shared { inner } = self;
        Arc::into_inner(inner)
    }

    /// Another owner of the same value.
    pub fn copy(&self) -> Result<Shared<T>, AllocError>
        ensures { IfOk result (λ other. other ≡ self.now) }
    {
        let inner = Arc::try_clone(&self.inner)?;
        Ok(Shared { inner })
    }
}

impl<T: Drop> Shared<T> {
    pub fn new(alloc: Global, value: T) -> Result<Shared<T>, AllocError>
        ensures { IfOk result (λ s. s ≡ value) }
    {
        Ok(Shared {
            inner: Arc::new(alloc, value)?,
        })
    }
}
