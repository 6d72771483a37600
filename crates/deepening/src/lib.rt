//! Iterative deepening: the rounds of a search, from depth 1 up to a depth whose tableau some offer closes.
#![tactic(auto)]

mod agents;
mod alone;
mod endings;
mod kept;
mod limits;
mod order;
mod searching;
mod settled;
mod translated;

pub use endings::Ending;
pub use kept::Kept;
pub use limits::{Limits, POOL_TRIES};
pub use order::{Order, Way};
pub use searching::{Searched, search, search_alone};
