//! The tokens of a text, one after the other.

ghost use Rattle.std.specs.Prelude.{◌≡◌, ◌≤◌, ◌<◌, ◌-◌, [], ◌∷◌, List, length, MatchOption, IfOk, IfErr, IfSome};
ghost use Rattle.fof_lex.specs.Tokens.{Lexes, LexesUpTo, AreIn};
ghost use Rattle.fof_lex.specs.Lexer.{place, IsRefusalFrom};
ghost use Rattle.fof_lex.specs.declared.token.Token.{Token as LexToken};

use crate::piece::{Piece, piece_at};
use crate::text::LexError;
use crate::token::Token;
use std::marker::Model;

/// Reads the tokens of a text, the longest one at each place, one after the other. Blanks and comments may stand
/// between tokens. It takes no memory.
#[derive(Drop)]
pub struct Lexer<'a> {
    bytes: &'a [u8],
    rest: &'a [u8],
}

impl<'a> Model for Lexer<'a> {
    ghost use Rattle.fof_lex.specs.Lexer.{Unread, IsEnd};

    ghost Value = { Unread };

    ghost view = { λ l. record { text = l.bytes.now; rest = l.rest.now } };

    ghost invariant = { λ l. IsEnd l.rest.now l.bytes.now };
}

/// The offset of a part that ends where the text ends.
fn offset_of(rest: &[u8], bytes: &[u8]) -> u64
    requires { length rest.now ≤ length bytes.now }
    ensures { result ≡ length bytes.now - length rest.now }
{
    (bytes.len() - rest.len()) as u64
}

impl<'a> Lexer<'a> {
    pub fn new(bytes: &'a [u8]) -> Lexer<'a>
        ensures text { result.text ≡ bytes.now }
        ensures rest { result.rest ≡ bytes.now }
    {
        Lexer { bytes, rest: bytes }
    }

    /// The next token, or None where blanks and comments alone are left. Where no token begins, the error is that of
    /// the whole text. Nothing is read but where a token is found.
    pub fn next_token(&mut self) -> Result<Option<Token>, LexError>
        ensures text { self.new.text ≡ self.old.text }
        ensures token { IfOk result (λ found. MatchOption found
            (Lexes (place self.old) self.old.rest [] × (self.new ≡ self.old))
            (λ t. LexesUpTo (place self.old) self.old.rest (t ∷ []) (place self.new) self.new.rest)) }
        ensures stands { IfOk result (λ found. IfSome found (λ t. AreIn self.old.text (place self.old) (t ∷ []))) }
        ensures shorter { IfOk result (λ found. IfSome found (λ _. length self.new.rest < length self.old.rest)) }
        ensures refused { IfErr result (IsRefusalFrom self.old) }
        ensures kept { IfErr result (λ _. self.new ≡ self.old) }
    {
        let mut rest = self.rest;
        'pieces: while !rest.is_empty() {
            match piece_at(rest) {
                Piece::Gap(behind) => rest = behind,
                Piece::Token(kind, behind) => {
                    let start = offset_of(rest, self.bytes);
                    let end = offset_of(behind, self.bytes);
                    self.rest = behind;
                    return Ok(Some(Token { kind, start, end }));
                }
                Piece::Nothing => {
                    let offset = offset_of(rest, self.bytes);
                    return Err(LexError::Bad { offset });
                }
            }
        }
        Ok(None)
    }

    /// Reads on to the end of the text. After an error it stands behind the tokens that were found, and each further
    /// call refuses the text alike.
    pub fn read_on(&mut self) -> Result<(), LexError>
        ensures tokens { IfOk result (λ _. (tokens : List LexToken) × Lexes (place self.old) self.old.rest tokens) }
        ensures at_end { IfOk result (λ _. Lexes (place self.new) self.new.rest []) }
        ensures text { self.new.text ≡ self.old.text }
        ensures refused { IfErr result (IsRefusalFrom self.old) }
        ensures stays { IfErr result (IsRefusalFrom self.new) }
    {
        'tokens: while let Some(_) = self.next_token()? {}
        Ok(())
    }
}
