//! What stands in front of a text.

ghost use Rattle.std.specs.Prelude.{◌≡◌};
ghost use Rattle.fof_lex.specs.Reading.{slash_piece, sign_piece, quoted_piece, distinct_piece, dollar_word};
ghost use Rattle.fof_lex.specs.Reading.{dollar_piece, less_piece, tilde_piece, equals_piece, exclamation_piece};
ghost use Rattle.fof_lex.specs.Reading.{single_mark, mark_before, symbol_piece, piece_at};
ghost use Rattle.fof_lex.specs.Views.{piece_of};

use crate::runs::{after_close, after_line, after_number, after_quote, after_word};
use crate::token::{Connective, Kind, Mark};

/// What stands in front of a text, with what follows it.
#[derive(Clone, Copy)]
pub(crate) enum Piece<'a> {
    /// A blank or a comment.
    Gap(&'a [u8]),
    Token(Kind, &'a [u8]),
    /// No blank, comment or token begins the text.
    Nothing,
}

/// The piece of a slash and the bytes behind it: a comment, or the mark.
#[tactic(auto, unfolding(crate::specs::Reading::slash_piece))]
fn slash_piece(behind: &[u8]) -> Piece<'_>
    ensures { piece_of result ≡ slash_piece behind.now }
{
    match behind {
        [b'*', body @ ..] => match after_close(body) {
            Some(rest) => Piece::Gap(rest),
            None => Piece::Nothing,
        },
        _ => Piece::Token(Kind::Mark(Mark::Slash), behind),
    }
}

/// The piece of a sign and the bytes behind it: a number, or the mark.
#[tactic(auto, unfolding(crate::specs::Reading::sign_piece))]
fn sign_piece(mark: Mark, behind: &[u8]) -> Piece<'_>
    ensures { piece_of result ≡ sign_piece mark behind.now }
{
    match behind {
        [b'0'..=b'9', ..] => Piece::Token(Kind::Number, after_number(behind)),
        _ => Piece::Token(Kind::Mark(mark), behind),
    }
}

#[tactic(auto, unfolding(crate::specs::Reading::quoted_piece))]
fn quoted_piece(behind: &[u8]) -> Piece<'_>
    ensures { piece_of result ≡ quoted_piece behind.now }
{
    match behind {
        [b'\'', ..] => Piece::Nothing,
        _ => match after_quote(b'\'', behind) {
            Some(rest) => Piece::Token(Kind::Quoted, rest),
            None => Piece::Nothing,
        },
    }
}

#[tactic(auto, unfolding(crate::specs::Reading::distinct_piece))]
fn distinct_piece(behind: &[u8]) -> Piece<'_>
    ensures { piece_of result ≡ distinct_piece behind.now }
{
    match after_quote(b'"', behind) {
        Some(rest) => Piece::Token(Kind::DistinctObject, rest),
        None => Piece::Nothing,
    }
}

/// The piece of one or two dollars and the bytes behind them.
fn dollar_word(behind: &[u8]) -> Piece<'_>
    ensures { piece_of result ≡ dollar_word behind.now }
{
    match behind {
        [b'a'..=b'z', ..] => Piece::Token(Kind::DollarWord, after_word(behind)),
        _ => Piece::Nothing,
    }
}

#[tactic(auto, unfolding(crate::specs::Reading::dollar_piece))]
fn dollar_piece(behind: &[u8]) -> Piece<'_>
    ensures { piece_of result ≡ dollar_piece behind.now }
{
    match behind {
        [b'$', word @ ..] => dollar_word(word),
        _ => dollar_word(behind),
    }
}

#[tactic(auto, unfolding(crate::specs::Reading::less_piece))]
fn less_piece(behind: &[u8]) -> Piece<'_>
    ensures { piece_of result ≡ less_piece behind.now }
{
    let (connective, rest) = match behind {
        [b'=', b'>', rest @ ..] => (Connective::Equivalent, rest),
        [b'=', rest @ ..] => (Connective::ImpliedBy, rest),
        [b'~', b'>', rest @ ..] => (Connective::NotEquivalent, rest),
        _ => return Piece::Token(Kind::Mark(Mark::Less), behind),
    };
    Piece::Token(Kind::Connective(connective), rest)
}

#[tactic(auto, unfolding(crate::specs::Reading::tilde_piece))]
fn tilde_piece(behind: &[u8]) -> Piece<'_>
    ensures { piece_of result ≡ tilde_piece behind.now }
{
    match behind {
        [b'&', rest @ ..] => Piece::Token(Kind::Connective(Connective::NotAnd), rest),
        [b'|', rest @ ..] => Piece::Token(Kind::Connective(Connective::NotOr), rest),
        _ => Piece::Token(Kind::Mark(Mark::Tilde), behind),
    }
}

#[tactic(auto, unfolding(crate::specs::Reading::equals_piece))]
fn equals_piece(behind: &[u8]) -> Piece<'_>
    ensures { piece_of result ≡ equals_piece behind.now }
{
    match behind {
        [b'>', rest @ ..] => Piece::Token(Kind::Connective(Connective::Implies), rest),
        _ => Piece::Token(Kind::Mark(Mark::Equals), behind),
    }
}

#[tactic(auto, unfolding(crate::specs::Reading::exclamation_piece))]
fn exclamation_piece(behind: &[u8]) -> Piece<'_>
    ensures { piece_of result ≡ exclamation_piece behind.now }
{
    match behind {
        [b'=', rest @ ..] => Piece::Token(Kind::Connective(Connective::NotEqual), rest),
        _ => Piece::Token(Kind::Mark(Mark::Exclamation), behind),
    }
}

/// The mark of a byte with which no longer token begins.
fn single_mark(c: u8) -> Option<Mark>
    ensures { result ≡ single_mark c }
{
    match c {
        b'(' => Some(Mark::OpenParenthesis),
        b')' => Some(Mark::CloseParenthesis),
        b'[' => Some(Mark::OpenBracket),
        b']' => Some(Mark::CloseBracket),
        b'{' => Some(Mark::OpenBrace),
        b'}' => Some(Mark::CloseBrace),
        b',' => Some(Mark::Comma),
        b'.' => Some(Mark::Stop),
        b':' => Some(Mark::Colon),
        b';' => Some(Mark::Semicolon),
        b'?' => Some(Mark::Question),
        b'&' => Some(Mark::Ampersand),
        b'|' => Some(Mark::Bar),
        b'>' => Some(Mark::Greater),
        b'@' => Some(Mark::At),
        b'^' => Some(Mark::Caret),
        b'*' => Some(Mark::Star),
        b'\\' => Some(Mark::Backslash),
        b'#' => Some(Mark::Hash),
        _ => None,
    }
}

fn mark_piece(c: u8, behind: &[u8]) -> Piece<'_>
    ensures { piece_of result ≡ mark_before (single_mark c) behind.now }
{
    match single_mark(c) {
        Some(mark) => Piece::Token(Kind::Mark(mark), behind),
        None => Piece::Nothing,
    }
}

/// The piece of a byte that is no letter, no digit and no blank, and of the bytes behind it.
#[tactic(auto, unfolding(crate::specs::Reading::symbol_piece))]
fn symbol_piece(c: u8, behind: &[u8]) -> Piece<'_>
    ensures { piece_of result ≡ symbol_piece c behind.now }
{
    match c {
        b'%' => Piece::Gap(after_line(behind)),
        b'/' => slash_piece(behind),
        b'+' => sign_piece(Mark::Plus, behind),
        b'-' => sign_piece(Mark::Minus, behind),
        b'\'' => quoted_piece(behind),
        b'"' => distinct_piece(behind),
        b'$' => dollar_piece(behind),
        b'<' => less_piece(behind),
        b'~' => tilde_piece(behind),
        b'=' => equals_piece(behind),
        b'!' => exclamation_piece(behind),
        _ => mark_piece(c, behind),
    }
}

/// The piece in front of a text.
#[tactic(auto, unfolding(crate::specs::Reading::piece_at))]
pub(crate) fn piece_at(bytes: &[u8]) -> Piece<'_>
    ensures { piece_of result ≡ piece_at bytes.now }
{
    let [c, behind @ ..] = bytes else {
        return Piece::Nothing;
    };
    match *c {
        9..=13 | 32 => Piece::Gap(behind),
        b'a'..=b'z' => Piece::Token(Kind::LowerWord, after_word(behind)),
        b'A'..=b'Z' => Piece::Token(Kind::UpperWord, after_word(behind)),
        b'0'..=b'9' => Piece::Token(Kind::Number, after_number(bytes)),
        symbol => symbol_piece(symbol, behind),
    }
}
