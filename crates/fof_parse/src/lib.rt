//! Problems in the first-order form of TPTP, without equality.
#![tactic(auto)]

mod atom;
mod build;
mod contents;
mod ending;
mod formula;
mod law;
mod lines;
mod problem;
mod read;
mod refusal;
mod start;
mod statement;
mod term;
mod text;
mod token;
mod verdict;

pub use ending::MAX_NESTING;
pub use law::{closed_start, one_answer};
pub use lines::refusal_line;
pub use problem::{Problem, Statement, Statements};
pub use read::{MAX_BYTES, ReadError, read_problem};
pub use refusal::BadKind;
pub use start::{into_start_list, start_list};
pub use statement::Role;

#[cfg(test)]
mod tests;
