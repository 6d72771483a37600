//! The words of `goeland`: what they ask for, or that they ask for nothing.
#![tactic(auto)]

mod command;
mod limits;
mod number;
mod prove;
mod text;
mod values;
mod words;

pub use prove::{ProveWords, Schedule};
pub use text::Text;
pub use words::{Command, WordsError, read_words};

#[cfg(test)]
mod tests;
