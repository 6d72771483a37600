//! The tokens of a whole text.

ghost use Rattle.std.specs.Prelude.{IfOk, IfErr};
ghost use Rattle.fof_lex.specs.Tokens.{Lexes, AreIn};
ghost use Rattle.fof_lex.specs.Refusal.{IsRefusal};

use crate::lexer::Lexer;
use crate::token::Tokens;
use containers::Items;
use std::alloc::{AllocError, Global};
use thiserror::Error;

/// Why a text has no tokens.
#[derive(Clone, Copy, Debug, PartialEq, Eq, Error)]
pub enum LexError {
    /// The first offset, behind blanks, comments and tokens, at which no blank, comment or token begins. Offsets are
    /// counted in bytes from the start of the text.
    #[error("no token begins at offset {offset}")]
    Bad { offset: u64 },
    #[error("out of memory")]
    OutOfMemory,
}

impl From<AllocError> for LexError {
    ghost use Rattle.std.specs.Prelude.{◌≡◌};
    ghost use Rattle.fof_lex.specs.declared.text.LexError.TheVariants.{OutOfMemory};

    ghost from_gives = { λ _ e. e ≡ OutOfMemory };

    fn from(_e: AllocError) -> LexError {
        LexError::OutOfMemory
    }
}

/// The tokens of a text, the longest one at each place. Blanks and comments may stand between tokens.
pub fn lex(alloc: Global, bytes: &[u8]) -> Result<Tokens, LexError>
    ensures tokens { IfOk result (λ tokens. Lexes 0 bytes.now tokens) }
    ensures places { IfOk result (λ tokens. AreIn bytes.now 0 tokens) }
    ensures refused { IfErr result (IsRefusal bytes.now) }
{
    let mut tokens = Items::new(alloc);
    let mut lexer = Lexer::new(bytes);
    'tokens: while let Some(token) = lexer.next_token()? {
        tokens.push(token)?;
    }
    Ok(tokens)
}
