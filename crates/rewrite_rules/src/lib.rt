//! Rules that rewrite literals, made of a problem's equivalences.
#![tactic(auto)]

mod equivalence;
mod fitting;
mod grouping;
mod making;
mod rewriting;
mod rule;
mod rules;

pub use making::rules_of;
pub use rewriting::{Literal, literal_of, rewrite};
pub use rule::{Rewritten, Rule};
pub use rules::{Rules, is_rule_axiom};

#[cfg(test)]
mod tests;
