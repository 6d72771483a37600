//! How a refusal is told.

ghost use Rattle.std.specs.Prelude.{◌≡◌, IfOk};
ghost use Rattle.fof_parse.specs.Lines.{kind_word, refusal_line};

use crate::refusal::BadKind;
use itoa::Buffer;
use std::alloc::{AllocError, Global};

impl BadKind {
    /// The kind's name, as it is printed.
    pub fn word(self) -> &'static str
        ensures { result.now ≡ kind_word self }
    {
        match self {
            BadKind::Include => "Include",
            BadKind::Language => "Language",
            BadKind::TooDeep => "TooDeep",
            BadKind::Syntax => "Syntax",
            BadKind::Equality => "Equality",
            BadKind::Number => "Number",
            BadKind::Distinct => "Distinct",
            BadKind::Dollar => "Dollar",
            BadKind::Role => "Role",
            BadKind::FreeVariable => "FreeVariable",
            BadKind::SecondConjecture => "SecondConjecture",
        }
    }
}

/// The line that tells why a text is refused, and at which of its bytes, as `% refused Syntax at 0`.
pub fn refusal_line(alloc: Global, word: &str, offset: u64) -> Result<Vec<u8>, AllocError>
    ensures { IfOk result (λ line. line.items ≡ refusal_line word.now offset) }
{
    let mut line = Vec::from_slice(alloc, b"% refused ")?;
    line.extend_from_slice(word.as_bytes())?;
    line.extend_from_slice(b" at ")?;
    let mut buffer = Buffer::new();
    line.extend_from_slice(buffer.format(offset).as_bytes())?;
    line.push(b'\n')?;
    Ok(line)
}
