//! The text of the histories of a negotiation's nodes.
#![tactic(auto)]

mod event;
mod history;
mod node_line;
mod spelling;

pub use history::spell_history;
pub use node_line::NodeLine;
pub use spelling::OfferSpelling;

#[cfg(test)]
mod tests;
