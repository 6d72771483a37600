//! Values that are copied in constant time, and lists of them that are copied at their first change.
ghost use Rattle.std.specs.Prelude.{◌≡◌, ◌++◌, ◌∷◌, [], unwrap_or, IfOk};

use crate::shared::Shared;
use sqlite_items::Items;
use std::alloc::{AllocError, Global};

/// A type whose values are copied in constant time, since copies share their parts.
pub trait Share {
    /// An equal value.
    fn share(&self) -> Result<Self, AllocError>
        ensures { IfOk result (λ other. other ≡ self.now) };
}

impl<T> Share for Shared<T> {
    fn share(&self) -> Result<Shared<T>, AllocError>
        ensures { IfOk result (λ other. other ≡ self.now) }
    {
        self.copy()
    }
}

/// A list of equal values.
pub fn copies<T: Share + Drop>(alloc: Global, items: &[T]) -> Result<Items<T>, AllocError>
    ensures { IfOk result (λ out. out ≡ items.now) }
{
    let mut out = Items::new(alloc);
    for item in items {
        out.push(item.share()?)?;
    }
    Ok(out)
}

/// One step of changing a list from its front: `front` is what `before` became, and `new` what `old` became, the item
/// behind it. None stands for what is unchanged, so that no copy is made before the first change.
pub fn with_next<T: Share + Drop>(
    alloc: Global,
    front: Option<Items<T>>,
    before: &[T],
    old: &T,
    new: Option<T>,
) -> Result<Option<Items<T>>, AllocError>
    ensures { IfOk result (λ out.
        unwrap_or out (before.now ++ old.now ∷ []) ≡ unwrap_or front before.now ++ unwrap_or new old.now ∷ []) }
{
    match (front, new) {
        (None, None) => Ok(None),
        (None, Some(item)) => {
            let mut out = copies(alloc, before)?;
            out.push(item)?;
            Ok(Some(out))
        }
        (Some(mut out), None) => {
            out.push(old.share()?)?;
            Ok(Some(out))
        }
        (Some(mut out), Some(item)) => {
            out.push(item)?;
            Ok(Some(out))
        }
    }
}
