//! What the statements of a text say, while they are read.

ghost use Rattle.std.specs.Prelude.{◌≡◌, MatchResult, IfOk};
ghost use Rattle.fol_core.specs.View.{formula_of};
ghost use Rattle.fof_parse.specs.Reader.Text.{AreAllIn, tokens_in};
ghost use Rattle.fof_parse.specs.Problem.{empty_problem};
ghost use Rattle.fof_parse.specs.ProblemParts.{plain_label};
ghost use Rattle.fof_parse.specs.ProblemView.{plain_contents, plain_problem};
ghost use Rattle.fof_parse.specs.Kept.{IsKept};
ghost use Rattle.fof_parse.specs.Refusal.{IsBad};
ghost use Rattle.fof_parse.specs.Reader.Chunks.{has_conjecture, Puts, Takes};

use crate::build::Draft;
use crate::problem::{Problem, Statement, Statements};
use crate::refusal::BadKind;
use crate::statement::{Role, name_bytes};
use crate::text::Text;
use crate::verdict::{Good, verdict};
use containers::Items;
use fol_core::{Formula, Formulas, Symbols};
use std::alloc::{AllocError, Global};

/// The statements of a text so far, and their formulas.
#[derive(Drop)]
pub struct Contents {
    pub symbols: Symbols,
    pub statements: Statements,
    pub axioms: Formulas,
    pub conjecture: Option<Formula>,
}

/// The contents of a text without statements.
pub fn empty_contents(alloc: Global) -> Contents
    ensures { plain_contents result ≡ empty_problem }
{
    Contents {
        symbols: Symbols::new(alloc),
        statements: Items::new(alloc),
        axioms: Items::new(alloc),
        conjecture: None,
    }
}

/// The problem of all statements of a text.
pub fn problem_of(contents: Contents) -> Problem
    requires { IsKept (plain_contents contents) }
    ensures { plain_problem result ≡ plain_contents contents }
{
    let Contents {
        symbols,
        statements,
        axioms,
        conjecture,
    } = contents;
    Problem {
        symbols,
        statements,
        axioms,
        conjecture,
    }
}

/// The contents with a further statement, whose formula is put to its place.
fn with_formula(
    contents: Contents,
    statement: Statement,
    formula: Formula,
) -> Result<Contents, AllocError>
    ensures { IfOk result (λ next. Puts (plain_contents contents) (plain_label statement) (formula_of formula)
        (plain_contents next)) }
{
    let role = statement.role;
    let mut contents = contents;
    contents.statements.push(statement)?;
    if role == Role::Conjecture {
        contents.conjecture = Some(formula);
    } else {
        contents.axioms.push(formula)?;
    }
    Ok(contents)
}

/// The contents with the statement that the tokens are, or the statement's first fault.
pub fn with_statement(
    alloc: Global,
    contents: Contents,
    bytes: &[u8],
    tokens: &[fof_lex::Token],
) -> Result<Result<Contents, BadKind>, AllocError>
    requires { AreAllIn bytes.now tokens.now }
    ensures { IfOk result (λ next. MatchResult next
        (λ c. Takes (plain_contents contents) (tokens_in bytes.now tokens.now) (plain_contents c))
        (λ k. IsBad (has_conjecture (plain_contents contents)) (tokens_in bytes.now tokens.now) k)) }
{
    let Contents {
        symbols,
        statements,
        axioms,
        conjecture,
    } = contents;
    let mut draft = Draft {
        symbols,
        fault: None,
        is_closed: true,
    };
    let text = Text { bytes, tokens };
    match verdict(alloc, &text, &mut draft, conjecture.is_some())? {
        Err(kind) => Ok(Err(kind)),
        Ok(
            Good {
                name,
                role,
                formula,
            },
        ) => {
            let name = name_bytes(alloc, name)?;
            let contents = Contents {
                symbols: draft.symbols,
                statements,
                axioms,
                conjecture,
            };
            Ok(Ok(with_formula(contents, Statement { name, role }, formula)?))
        }
    }
}
