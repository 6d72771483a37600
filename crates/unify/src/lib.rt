//! Offers of bindings for metavariables, and most general ones by unification.
#![tactic(auto)]

mod applying;
mod bindings;
mod equal;
mod equality;
mod follow;
mod lookup;
mod measuring;
mod memo;
mod nesting;
mod step;
mod subst;
mod unification;
mod work;

pub use applying::resolve;
pub use bindings::Binding;
pub use equal::{entails, equates};
pub use equality::same;
pub use follow::lead;
pub use lookup::{binding, value_of};
pub use measuring::{Extent, Extents, Lengths, measure, no_extents};
pub use nesting::MOST_NESTED;
pub use subst::{Subst, copy, empty};
pub use unification::unify;

#[cfg(test)]
mod tests;
