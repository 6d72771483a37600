//! Tokens.

use containers::Items;

/// The connectives of two or three bytes.
#[derive(Clone, Copy, Debug, PartialEq, Eq)]
pub enum Connective {
    /// `<=>`
    Equivalent,
    /// `<~>`
    NotEquivalent,
    /// `=>`
    Implies,
    /// `<=`
    ImpliedBy,
    /// `~&`
    NotAnd,
    /// `~|`
    NotOr,
    /// `!=`
    NotEqual,
}

/// The tokens of one byte.
#[derive(Clone, Copy, Debug, PartialEq, Eq)]
pub enum Mark {
    OpenParenthesis,
    CloseParenthesis,
    OpenBracket,
    CloseBracket,
    OpenBrace,
    CloseBrace,
    Comma,
    Stop,
    Colon,
    Semicolon,
    Exclamation,
    Question,
    Tilde,
    Ampersand,
    Bar,
    Equals,
    Less,
    Greater,
    At,
    Caret,
    Plus,
    Minus,
    Star,
    Slash,
    Backslash,
    Hash,
}

/// What a token is. Its text is not here: it is the part of the bytes from the token's start to its end.
#[derive(Clone, Copy, Debug, PartialEq, Eq)]
pub enum Kind {
    /// A small letter, and then letters, digits and underscores.
    LowerWord,
    /// A capital letter, and then letters, digits and underscores.
    UpperWord,
    /// One or more printable bytes in single quotes, with `\\` for a backslash and `\'` for a quote.
    Quoted,
    /// Any number of printable bytes in double quotes, with `\\` for a backslash and `\"` for a quote.
    DistinctObject,
    /// `$` or `$$`, and then a lower word.
    DollarWord,
    /// Digits, perhaps with a sign; perhaps with a denominator, or with decimals and an exponent.
    Number,
    Connective(Connective),
    Mark(Mark),
}

/// A token: what it is, and where its text stands. Offsets are counted in bytes from the start of the whole text.
#[derive(Clone, Copy, Debug, PartialEq, Eq)]
pub struct Token {
    pub kind: Kind,
    /// The offset of its first byte.
    pub start: u64,
    /// The offset of the byte behind its last one.
    pub end: u64,
}

/// The tokens of a text, in its order.
pub type Tokens = Items<Token>;
