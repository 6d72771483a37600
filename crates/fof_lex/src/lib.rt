//! The tokens of a TPTP text.
#![tactic(auto)]

mod law;
mod lexer;
mod piece;
mod runs;
mod text;
mod token;

pub use law::one_reading;
pub use lexer::Lexer;
pub use text::{LexError, lex};
pub use token::{Connective, Kind, Mark, Token, Tokens};

#[cfg(test)]
mod tests;
