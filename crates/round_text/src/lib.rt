//! How the offers of a round are written in histories.
#![tactic(auto)]

mod spelling;

pub use spelling::RoundSpelling;
