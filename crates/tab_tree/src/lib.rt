//! The free-variable tableau: its segments, their closing items, and closed trees.
#![tactic(auto)]

mod closed;
mod equating;
mod finding;
mod item;
mod round;
mod segment;
mod site;
mod words;

pub use closed::ClosedTree;
pub use equating::{Opposites, arguments, is_closed_by};
pub use item::{Item, TabItems};
pub use round::Round;
pub use segment::{root, split};
pub use site::{Site, branch, item_count, pairs, site_name, split_place, steps};
pub use words::{Engine, OpenAnswer};
