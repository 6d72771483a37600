//! The negotiation on one board, by any list of picks.
#![tactic(auto)]

pub mod board;
pub mod example;
mod links;
pub mod picks;
mod play;
pub mod schedule;
mod turns;
