//! A segment of a list, and the chain of segments above it.
ghost use Rattle.std.specs.Prelude.{◌≡◌, ◌<◌, ◌≤◌, drop, length, slice_get, IfSome, IfErr, IfOk, OnOk, OnErr};
ghost use Rattle.std.specs.Option.{option_copied};
ghost use Rattle.seg_list.specs.Chain.{no_chain, chain_below, chain_with, chain_shortened};

use containers::Shared;
use std::alloc::Global;
use std::marker::Model;
use std::sync::Arc;

/// The items that a list got between two forks. Those before them are shared with the other lists of the fork.
pub(crate) struct Segment<T> {
    above: Option<Shared<Segment<T>>>,
    start: u32,
    depth: u64,
    items: Vec<T>,
}

impl<T> Model for Segment<T> {
    ghost use Rattle.std.specs.Prelude.{◌≡◌, ◌<◌, ◌++◌, ◌^◌, length};
    ghost use Rattle.std.proofs.Common.{arith};
    ghost use Rattle.seg_list.specs.Chain.{Chain, chain_code, items_above, IsBelow};

    ghost Value = { Chain T };

    ghost coded = { chain_code T.code };

    ghost view = { λ s. record { items = items_above s.above ++ s.items.items; start = s.start; depth = s.depth } };

    ghost invariant = { λ s.
        (s.start ≡ length (items_above s.above)) × IsBelow s.above s.depth
        × (length (items_above s.above ++ s.items.items) < 2 ^ 32) };

    ghost size = { λ c. c.depth };

    ghost size_decreases = { λ a h. Prim.grind (arith) };
}

/// Lets the segments go that nothing else owns, one after another: a long chain takes no deep stack.
impl<T: Drop> Drop for Segment<T> {
    fn drop(mut self) {
        loop {
            let Segment {
                above,
                start: _,
                depth: _,
                items,
            } = self;
            drop(items);
            match above {
                Some(above) => match above.into_inner() {
                    Some(last) => self = last,
                    None => return,
                },
                None => return,
            }
        }
    }
}

impl<T> Segment<T> {
    /// The first segment of a list, without an item. It takes no memory.
    pub(crate) fn first(alloc: Global) -> Segment<T>
        ensures { result ≡ no_chain }
    {
        Segment {
            above: None,
            start: 0,
            depth: 0,
            items: Vec::new(alloc),
        }
    }

    /// The number of items up to the end of the segment.
    pub(crate) fn len(&self) -> u32
        ensures value { result ≡ length self.now.items }
        ensures own { self.now.start ≤ length self.now.items }
    {
        self.start + self.items.len() as u32
    }

    /// The place of the segment's first item in the list.
    pub(crate) fn start(&self) -> u32
        ensures { result ≡ self.now.start }
    {
        self.start
    }

    /// The segment's own items.
    #[tactic(auto, using(crate::proofs::Places::own_items, crate::proofs::Places::starts_within))]
    pub(crate) fn own(&self) -> &[T]
        ensures items { result.now ≡ drop self.now.start self.now.items }
        ensures within { self.now.start ≤ length self.now.items }
    {
        self.items.as_slice()
    }

    /// The item at a place of the list. It goes up one segment after another.
    #[tactic(auto, using(crate::proofs::Places::goes_up, crate::proofs::Places::starts_first))]
    pub(crate) fn get(&self, place: u32) -> Option<&T>
        ensures { option_copied result ≡ slice_get self.now.items place }
    {
        let mut at = self;
        loop {
            if at.start <= place {
                return item_at(&at.items, place - at.start);
            }
            match &at.above {
                Some(above) => at = above.get(),
                None => return None,
            }
        }
    }
}

impl<T: Drop> Segment<T> {
    /// Adds an item at the end. After an error the segment is unchanged, and the item comes back.
    pub(crate) fn push(&mut self, item: T) -> Result<(), T>
        requires { length self.old.items < 4294967295 }
        ensures ok { OnOk result (self.new ≡ chain_with self.old item) }
        ensures back { IfErr result (λ given. given ≡ item) }
        ensures err { OnErr result (self.new ≡ self.old) }
    {
        match self.items.push(item) {
            Ok(()) => Ok(()),
            Err(failed) => Err(failed.value),
        }
    }

    /// Lets go the items from a place of the segment on. It takes no memory.
    pub(crate) fn truncate(&mut self, len: u32)
        requires { self.old.start ≤ len }
        ensures { self.new ≡ chain_shortened self.old len }
    {
        self.items.truncate((len - self.start) as usize);
    }

    /// The segment as one that several may own. After an error it comes back.
    pub(crate) fn shared(self) -> Result<Shared<Segment<T>>, Segment<T>>
        ensures ok { IfOk result (λ s. s ≡ self) }
        ensures err { IfErr result (λ s. s ≡ self) }
    {
        let alloc = *self.items.allocator();
        match Arc::new(alloc, self) {
            Ok(inner) => Ok(Shared::from_arc(inner)),
            Err(failed) => Err(failed.value),
        }
    }

    /// A segment below another, without an item. It takes no memory. None where 18,446,744,073,709,551,615 are above.
    pub(crate) fn below(above: Shared<Segment<T>>) -> Option<Segment<T>>
        ensures { IfSome result (λ s. s ≡ chain_below above) }
    {
        let last = above.get();
        let Some(depth) = last.depth.checked_add(1) else {
            return None;
        };
        let start = last.len();
        let items = Vec::new(*last.items.allocator());
        Some(Segment {
            above: Some(above),
            start,
            depth,
            items,
        })
    }
}

fn item_at<T>(items: &Vec<T>, at: u32) -> Option<&T>
    ensures { option_copied result ≡ slice_get items.now.items at }
{
    items.get(at as usize)
}
