//! Lists of shared pointers.

ghost use Rattle.std.specs.Prelude.{◌≡◌, ◌++◌, ℕ, take, IfOk, OnOk, OnErr};

use crate::shared::Shared;
use sqlite_items::Items;
use std::alloc::{AllocError, Global};

/// Adds further owners of the values of `more` at the end of `list`. After an error those of the first few are added.
pub fn append_owners<T: Drop>(
    list: &mut Items<Shared<T>>,
    more: &Items<Shared<T>>,
) -> Result<(), AllocError>
    ensures ok { OnOk result (list.new ≡ list.old ++ more.now) }
    ensures err { OnErr result ((n : ℕ) × (list.new ≡ list.old ++ take n more.now)) }
{
    for value in more.as_slice() {
        list.push(value.copy()?)?;
    }
    Ok(())
}

/// A list of further owners of the same values.
pub fn copy_owners<T: Drop>(
    alloc: Global,
    of: &Items<Shared<T>>,
) -> Result<Items<Shared<T>>, AllocError>
    ensures { IfOk result (λ other. other ≡ of.now) }
{
    let mut other = Items::new(alloc);
    append_owners(&mut other, of)?;
    Ok(other)
}

#[cfg(test)]
mod tests {
    use super::copy_owners;
    use crate::log::Log;
    use crate::shared::Shared;
    use sqlite_items::Items;
    use std::sync::Arc;
    use std::test::Fail;

    #[test]
    fn owners_share_a_value(rt: HostRuntime) -> Result<(), Fail> {
        let mut list = Items::new(rt.alloc());
        list.push(Shared::from_arc(Arc::new(rt.alloc(), 7u32)?))?;
        let copies = copy_owners(rt.alloc(), &list)?;
        assert_eq!(rt; copies.len(), 1);
        assert_eq!(rt; copies.get(0).map(|s| *s.get()), Some(7));
        Ok(())
    }

    #[test]
    fn a_log_has_the_room_that_was_reserved(rt: HostRuntime) -> Result<(), Fail> {
        let mut log = Log::new(rt.alloc());
        log.reserve(1)?;
        log.put(5u32);
        log.push(6)?;
        assert_eq!(rt; log.as_slice(), [5, 6].as_slice());
        Ok(())
    }
}
