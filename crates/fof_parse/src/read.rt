//! Reading a problem's text.

ghost use Rattle.std.specs.Prelude.{◌≡◌, ◌≢◌, ◌↔◌, ◌<◌, ◌≤◌, length, IfOk, IfErr, OnOk, IsErrOf, ◌+◌};
ghost use Rattle.fof_lex.specs.Lexer.{place};
ghost use Rattle.fof_lex.specs.Refusal.{IsRefusalAt};
ghost use Rattle.fof_parse.specs.TheProblem.{IsProblemText, IsTheProblem, IsNoProblem};
ghost use Rattle.fof_parse.specs.Reader.Text.{AreAllIn};
ghost use Rattle.fof_parse.specs.ProblemView.{plain_contents, plain_problem};
ghost use Rattle.fof_parse.specs.Reader.Chunks.{is_stop_kind, IsNext};
ghost use Rattle.fof_parse.specs.Refused.{Refuses};

use crate::contents::{Contents, empty_contents, problem_of, with_statement};
use crate::problem::Problem;
use crate::refusal::BadKind;
use fof_lex::{Kind, LexError, Lexer, Mark, Token};
use std::alloc::{AllocError, Global};
use thiserror::Error;

/// The longest text of a problem, in bytes.
pub const MAX_BYTES: usize = 16_777_216;

/// Why a text is no problem. Offsets are counted in bytes from the start of the text.
#[derive(Clone, Copy, Debug, PartialEq, Eq, Error)]
pub enum ReadError {
    #[error("the problem has more than {MAX_BYTES} bytes")]
    TooLarge,
    /// The first offset, behind blanks, comments and tokens, at which no token begins.
    #[error("no token begins at offset {offset}")]
    Lex { offset: u64 },
    /// The offset of the first token of the first bad statement, and what is bad in it.
    #[error("the statement at offset {offset} is refused: {kind:?}")]
    Bad { offset: u64, kind: BadKind },
    #[error("out of memory")]
    OutOfMemory,
}

impl From<AllocError> for ReadError {
    ghost use Rattle.std.specs.Prelude.{◌≡◌};
    ghost use Rattle.fof_parse.specs.declared.read.ReadError.TheVariants.{OutOfMemory};

    ghost from_gives = { λ _ e. e ≡ OutOfMemory };

    fn from(_e: AllocError) -> ReadError {
        ReadError::OutOfMemory
    }
}

impl From<LexError> for ReadError {
    ghost use Rattle.std.specs.Prelude.{◌≡◌};
    ghost use Rattle.fof_parse.specs.Refused.{refusal_of};

    ghost from_gives = { λ e r. r ≡ refusal_of e };

    fn from(e: LexError) -> ReadError {
        match e {
            LexError::Bad { offset } => ReadError::Lex { offset },
            LexError::OutOfMemory => ReadError::OutOfMemory,
        }
    }
}

fn is_stop(kind: Kind) -> bool
    ensures { result ≡ is_stop_kind kind }
{
    matches!(kind, Kind::Mark(Mark::Stop))
}

/// The tokens of the next statement, which go up to its full stop, or to the end of the text. None are left of what the
/// list held before.
fn next_statement(lexer: &mut Lexer<'_>, tokens: &mut Vec<Token>) -> Result<(), LexError>
    ensures text { OnOk result (lexer.new.text ≡ lexer.old.text) }
    ensures next { OnOk result (IsNext lexer.old tokens.new.items lexer.new) }
    ensures all_in { OnOk result (AreAllIn lexer.old.text tokens.new.items) }
    ensures shorter { OnOk result (length lexer.new.rest + length tokens.new.items ≤ length lexer.old.rest) }
    ensures refused { IfErr result (IsRefusalAt (place lexer.old) lexer.old.rest) }
{
    tokens.clear();
    'tokens: while let Some(token) = lexer.next_token()? {
        if tokens.push(token).is_err() {
            return Err(LexError::OutOfMemory);
        }
        if is_stop(token.kind) {
            return Ok(());
        }
    }
    Ok(())
}

/// What a text says that is not too large. The tokens of one statement are held at a time.
fn read_statements(alloc: Global, bytes: &[u8]) -> Result<Contents, ReadError>
    requires { length bytes.now ≤ MAX_BYTES }
    ensures contents { IfOk result (λ c. IsProblemText bytes.now (plain_contents c)) }
    ensures refused { IfErr result (Refuses bytes.now) }
{
    let mut lexer = Lexer::new(bytes);
    let mut tokens = Vec::new(alloc);
    let mut contents = empty_contents(alloc);
    'statements: loop {
        next_statement(&mut lexer, &mut tokens)?;
        let Some(first) = tokens.first() else {
            return Ok(contents);
        };
        let offset = first.start;
        match with_statement(alloc, contents, bytes, tokens.as_slice())? {
            Ok(next) => contents = next,
            Err(kind) => {
                lexer.read_on()?;
                return Err(ReadError::Bad { offset, kind });
            }
        }
    }
}

/// Reads a problem in the first-order form of TPTP. But for want of memory it is refused exactly where the text is no
/// problem.
pub fn read_problem(alloc: Global, bytes: &[u8]) -> Result<Problem, ReadError>
    ensures problem { IfOk result (λ p. IsTheProblem bytes.now (plain_problem p)) }
    ensures refused { IfErr result (Refuses bytes.now) }
    ensures no_problem { IfErr result (λ e. e ≢ ReadError.OutOfMemory → IsNoProblem bytes.now) }
    ensures too_large { IsErrOf result ReadError.TooLarge ↔ (MAX_BYTES < length bytes.now) }
{
    if bytes.len() > MAX_BYTES {
        return Err(ReadError::TooLarge);
    }
    let contents = read_statements(alloc, bytes)?;
    Ok(problem_of(contents))
}
