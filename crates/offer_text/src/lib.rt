//! The text of offers, and of terms with metavariables and Skolem terms, as histories print them.
#![tactic(auto)]

mod number;
mod offer;
mod term;

pub use number::spell_number;
pub use offer::spell_offer;
pub use term::spell_free_term;

#[cfg(test)]
mod tests;
