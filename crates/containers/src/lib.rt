//! Containers that contracts see as plain values: a shared pointer as its value, a vector as its list.
#![tactic(auto)]

mod log;
mod owners;
mod share;
mod shared;

pub use log::Log;
pub use owners::{append_owners, copy_owners};
pub use share::{Share, copies, with_next};
pub use shared::Shared;
pub use sqlite_items::{Boxed, Items};
