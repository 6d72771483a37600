//! Lists that share what stood in them when they were forked.
ghost use Rattle.std.specs.Prelude.{◌≡◌, ◌<◌, ◌≤◌, IsTrue, false, drop, length, slice_get, IfOk, IfErr, OnOk, OnErr};
ghost use Rattle.std.specs.Option.{option_copied};
ghost use Rattle.seg_list.specs.Branching.{no_items, with_item, sealed_list, half, shortened, list_after};

use crate::segment::Segment;
use containers::Shared;
use std::alloc::{AllocError, Global};
use std::marker::Model;

/// A list that grows at its end. Once it is sealed it can be forked: two lists go on from it, and share what stands
/// in it. Its own part is what it got since the last fork.
///
/// A fork costs the same however long the list is. To find an item costs one step for each fork behind the item.
#[derive(Drop)]
pub struct SegList<T> {
    own: Own<T>,
}

/// The own part of a list.
#[derive(Drop)]
enum Own<T> {
    Open(Segment<T>),
    Sealed(Shared<Segment<T>>),
}

impl<T> Model for SegList<T> {
    ghost use Rattle.seg_list.specs.Branching.{Branching, branching_code};

    ghost Value = { Branching T };

    ghost coded = { branching_code T.code };

    ghost use Rattle.seg_list.specs.Owned.{branching_of};

    ghost view = { λ l. branching_of l.own };
}

impl<T> SegList<T> {
    /// The list without an item, not sealed. It takes no memory.
    pub fn empty(alloc: Global) -> SegList<T>
        ensures { result ≡ no_items }
    {
        SegList {
            own: Own::Open(Segment::first(alloc)),
        }
    }

    /// The item at a place; None exactly where the place is not below the length. It takes no memory.
    pub fn get(&self, place: u32) -> Option<&T>
        ensures { option_copied result ≡ slice_get self.now.items place }
    {
        self.last().get(place)
    }

    /// How many items it has. It takes no memory.
    pub fn len(&self) -> u32
        ensures value { result ≡ length self.now.items }
        ensures own { self.now.own_start ≤ length self.now.items }
    {
        self.last().len()
    }

    /// The place where its own part starts. It takes no memory.
    pub fn own_start(&self) -> u32
        ensures { result ≡ self.now.own_start }
    {
        self.last().start()
    }

    /// Its own part: the items from `own_start` on. It takes no memory.
    pub fn own(&self) -> &[T]
        ensures items { result.now ≡ drop self.now.own_start self.now.items }
        ensures within { self.now.own_start ≤ length self.now.items }
    {
        self.last().own()
    }

    /// Whether it is sealed. It takes no memory.
    pub fn is_sealed(&self) -> bool
        ensures { result ≡ self.now.sealed }
    {
        match &self.own {
            Own::Open(_) => false,
            Own::Sealed(_) => true,
        }
    }

    fn last(&self) -> &Segment<T>
        ensures items { result.now.items ≡ self.now.items }
        ensures start { result.now.start ≡ self.now.own_start }
    {
        match &self.own {
            Own::Open(segment) => segment,
            Own::Sealed(segment) => segment.get(),
        }
    }
}

impl<T: Drop> SegList<T> {
    /// Adds an item at the end. After an error, for want of memory, the list is unchanged and the item comes back.
    pub fn push(&mut self, item: T) -> Result<(), T>
        requires open { self.old.sealed ≡ false }
        requires room { length self.old.items < 4294967295 }
        ensures ok { OnOk result (self.new ≡ with_item self.old item) }
        ensures back { IfErr result (λ given. given ≡ item) }
        ensures err { OnErr result (self.new ≡ self.old) }
    {
        match &mut self.own {
            Own::Open(segment) => segment.push(item),
            Own::Sealed(_) => unreachable!(),
        }
    }

    /// Lets go the items from a place of its own part on. It takes no memory.
    pub fn truncate(&mut self, len: u32)
        requires open { self.old.sealed ≡ false }
        requires own { self.old.own_start ≤ len }
        ensures { self.new ≡ shortened self.old len }
    {
        match &mut self.own {
            Own::Open(segment) => segment.truncate(len),
            Own::Sealed(_) => unreachable!(),
        }
    }

    /// The same list with the same own part, sealed. An error, for want of memory, hands the list back.
    pub fn seal(self) -> Result<SegList<T>, SegList<T>>
        ensures ok { IfOk result (λ list. list ≡ sealed_list self) }
        ensures err { IfErr result (λ list. list ≡ self) }
    {
        match self.own {
            Own::Open(segment) => match segment.shared() {
                Ok(segment) => Ok(SegList {
                    own: Own::Sealed(segment),
                }),
                Err(segment) => Err(SegList {
                    own: Own::Open(segment),
                }),
            },
            Own::Sealed(segment) => Ok(SegList {
                own: Own::Sealed(segment),
            }),
        }
    }

    /// Two lists equal to this one, not sealed, whose own parts start at its end. An error is want of memory; so it is
    /// called, too, where 18,446,744,073,709,551,615 forks stand above.
    pub fn fork(&self) -> Result<(SegList<T>, SegList<T>), AllocError>
        requires { IsTrue self.now.sealed }
        ensures left { IfOk result (λ lists. lists.0 ≡ half self.now) }
        ensures right { IfOk result (λ lists. lists.1 ≡ half self.now) }
    {
        match &self.own {
            Own::Open(_) => unreachable!(),
            Own::Sealed(segment) => {
                let left = list_below(segment)?;
                let right = list_below(segment)?;
                Ok((left, right))
            }
        }
    }
}

/// A list that goes on below a segment.
fn list_below<T: Drop>(above: &Shared<Segment<T>>) -> Result<SegList<T>, AllocError>
    ensures { IfOk result (λ list. list ≡ list_after above.now) }
{
    match Segment::below(above.copy()?) {
        Some(segment) => Ok(SegList {
            own: Own::Open(segment),
        }),
        None => Err(AllocError),
    }
}

#[cfg(test)]
mod tests {
    use super::SegList;
    use std::alloc::AllocError;
    use std::test::Fail;

    fn with(mut list: SegList<u32>, item: u32) -> Result<SegList<u32>, AllocError>
        requires open { list.sealed ≡ false }
        requires room { length list.items < 4294967295 }
        ensures { IfOk result (λ longer. longer ≡ with_item list item) }
    {
        match list.push(item) {
            Ok(()) => Ok(list),
            Err(_) => Err(AllocError),
        }
    }

    fn crosses<T: Send + Sync>(value: &T) -> &T {
        value
    }

    #[test]
    fn two_lists_go_on_from_one(rt: HostRuntime) -> Result<(), Fail> {
        let list = with(with(with(SegList::empty(rt.alloc()), 1)?, 2)?, 3)?;
        let Ok(list) = list.seal() else {
            return Err(Fail::from(AllocError));
        };
        let (left, right) = list.fork()?;
        let left = with(left, 4)?;
        let right = with(right, 5)?;
        assert_eq!(rt; (left.own_start(), right.own_start()), (3, 3));
        assert_eq!(rt; (left.len(), right.len()), (4, 4));
        assert_eq!(rt;
            (left.get(0).copied(), right.get(2).copied()),
            (Some(1), Some(3))
        );
        assert_eq!(rt; crosses(&left).own(), [4].as_slice());
        assert_eq!(rt; crosses(&right).own(), [5].as_slice());
        assert_eq!(rt; left.get(9).copied(), None);
        Ok(())
    }
}
