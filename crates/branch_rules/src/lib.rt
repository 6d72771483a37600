//! One step of a branch of the free-variable tableau.
#![tactic(auto)]

mod advancing;
mod branch;
mod choosing;
mod conjunct;
mod finding;
mod forking;
mod growing;
mod held;
mod kinds;
mod lists;
mod outcome;
mod parts;
mod planning;
mod queue;
mod reading;
mod sides;
mod starting;
mod step;
mod stepping;
mod taking;
mod work;

pub use branch::Branch;
pub use held::Entry;
pub use outcome::{Next, NextRefused};
pub use reading::{entry, len, rules};
pub use sides::halves;
pub use starting::start;
pub use step::{TabKind, TabStep, TabSteps};
pub use stepping::next;
