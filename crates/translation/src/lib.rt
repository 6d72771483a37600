//! The GS3 proof that stands for a closed tableau under its offer, and that it refutes the start list.
#![tactic(auto)]

mod law;

pub use law::{one_translation, refutes, spells};
