//! A problem: its symbols, its statements and their formulas.

ghost use Rattle.fof_parse.specs.ProblemParts.{plain_parts};
ghost use Rattle.fof_parse.specs.Kept.{IsKept};
ghost use Rattle.fof_parse.specs.KeptOnce.{IsKept-prop};

use crate::statement::Role;
use containers::Items;
use fol_core::{Formula, Formulas, Symbols};

/// A statement's name and what it is for.
#[derive(Drop)]
pub struct Statement {
    pub name: Items<u8>,
    pub role: Role,
}

pub type Statements = Items<Statement>;

/// What a text says: the axioms as they stand, and the conjecture as it stands. Their formulas are closed and use the
/// symbols alone.
#[derive(Drop)]
pub struct Problem {
    pub symbols: Symbols,
    /// All statements, in input order.
    pub statements: Statements,
    pub axioms: Formulas,
    pub conjecture: Option<Formula>,
    pub ghost kept: { IsKept (plain_parts symbols statements axioms conjecture) } by { IsKept-prop _ },
}
