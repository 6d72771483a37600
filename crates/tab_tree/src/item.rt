//! Closing items.

use containers::Items;

/// A closing item: an atom and a negated atom of one predicate symbol, or a formula that is false, by their places.
#[derive(Clone, Copy, Debug, PartialEq, Eq)]
pub enum Item {
    Pair { atom: u32, negated: u32 },
    FalseAt { place: u32 },
    NotTrue { place: u32 },
}

/// The closing items of a segment, by the later place and then the earlier.
pub type TabItems = Items<Item>;
