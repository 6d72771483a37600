//! The tableau of a round as what a negotiation is about.
#![tactic(auto)]

mod field;
mod law;
mod place;

pub use field::TabField;
pub use law::solves_where_closes;
pub use place::Place;
