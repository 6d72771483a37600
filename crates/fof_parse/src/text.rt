//! The tokens of a statement.

ghost use Rattle.std.specs.Prelude.{◌≡◌, ◌<◌, ◌+◌, [], ◌∷◌, length, option_map, MatchOption, IfSome};
ghost use Rattle.fof_parse.specs.Reader.Text.{AreIn, from, IsProper};
ghost use Rattle.fof_parse.specs.Reader.Reading.{after_mark};
ghost use Rattle.fof_parse.specs.Reader.Views.{token_view};

use crate::token::{Mark, Token, token_of};

/// The tokens of a statement, over the bytes of the whole text.
#[derive(Clone, Copy, Debug)]
pub struct Text<'a> {
    pub bytes: &'a [u8],
    pub tokens: &'a [fof_lex::Token],
}

/// The token at a place, and None where the tokens are at their end.
pub fn token_at<'a>(text: &Text<'a>, at: usize) -> Option<Token<'a>>
    requires { AreIn text.now }
    ensures token { MatchOption result (from text.now at ≡ [])
        (λ t. (from text.now at ≡ token_view t ∷ from text.now (at + 1)) × (at < length text.now.tokens.now)) }
    ensures proper { IfSome result (λ t. IsProper (token_view t)) }
{
    let token = text.tokens.get(at)?;
    let start = token.start as usize;
    let end = token.end as usize;
    Some(token_of(token.kind, &text.bytes[start..end]))
}

/// The place behind this mark, which stands at a place.
pub fn after_mark(text: &Text<'_>, at: usize, mark: Mark) -> Option<usize>
    requires { AreIn text.now }
    ensures mark { option_map (λ n. from text.now n) result ≡ after_mark mark (from text.now at) }
    ensures next { IfSome result (λ n. (n ≡ at + 1) × (at < length text.now.tokens.now)) }
{
    match token_at(text, at)? {
        Token::Marked(found) if found == mark => Some(at + 1),
        _ => None,
    }
}
