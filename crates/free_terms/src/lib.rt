//! Terms and formulas of the free-variable tableau, with metavariables and Skolem terms.
#![tactic(auto)]

mod filling;
mod fills;
mod formula;
mod lifting;
mod matching;
mod same;
mod term;

pub use filling::{fill, fill_all};
pub use fills::{Fill, Fills};
pub use formula::{FFormula, FFormulas};
pub use lifting::lift;
pub use matching::match_into;
pub use same::same_term;
pub use term::{FTerm, FTerms, Name};
