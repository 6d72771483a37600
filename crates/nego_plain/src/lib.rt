//! The plain engine: one node asks at a time.
#![tactic(auto)]

pub mod family;
pub mod law;
pub(crate) mod messages;
pub mod settling;
pub(crate) mod stepping;
pub mod tries;
