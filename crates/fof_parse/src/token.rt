//! The tokens of a text, as the grammar tells them apart.

ghost use Rattle.std.specs.Prelude.{◌≡◌};
ghost use Rattle.fof_parse.specs.Token.{between, mark_of, connective_of, token_of};
ghost use Rattle.fof_parse.specs.Reader.Views.{token_view};

use fof_lex::{Connective, Kind};

/// What stands between two units of a formula.
#[derive(Clone, Copy, Debug, PartialEq, Eq)]
pub enum Operator {
    /// `=>`
    Implies,
    /// `<=`
    ImpliedBy,
    /// `<=>`
    Equivalent,
    /// `<~>`
    NotEquivalent,
    /// `~&`
    NotAnd,
    /// `~|`
    NotOr,
    /// `&`
    And,
    /// `|`
    Or,
}

#[derive(Clone, Copy, Debug, PartialEq, Eq)]
pub enum Quantifier {
    /// `!`
    All,
    /// `?`
    Some,
}

#[derive(Clone, Copy, Debug, PartialEq, Eq)]
pub enum Equality {
    /// `=`
    Equal,
    /// `!=`
    Unequal,
}

#[derive(Clone, Copy, Debug, PartialEq, Eq)]
pub enum Bracket {
    /// `(` and `)`
    Round,
    /// `[` and `]`
    Square,
    /// `{` and `}`
    Curly,
}

/// The connectives and marks that the grammar names.
#[derive(Clone, Copy, Debug, PartialEq, Eq)]
pub enum Mark {
    Open(Bracket),
    Close(Bracket),
    Comma,
    Stop,
    Colon,
    Not,
    Quantifier(Quantifier),
    Binary(Operator),
    Equality(Equality),
}

/// A token with its text.
#[derive(Clone, Copy, Debug)]
pub enum Token<'a> {
    Lower(&'a [u8]),
    Upper(&'a [u8]),
    /// What stands between the quotes, with its escapes.
    Quoted(&'a [u8]),
    Distinct(&'a [u8]),
    Dollar(&'a [u8]),
    Number(&'a [u8]),
    Marked(Mark),
    /// A mark that may stand in annotations alone.
    Other,
}

/// What the connective is in the grammar.
pub fn mark_of_connective(connective: Connective) -> Mark
    ensures { result ≡ connective_of connective }
{
    match connective {
        Connective::Equivalent => Mark::Binary(Operator::Equivalent),
        Connective::NotEquivalent => Mark::Binary(Operator::NotEquivalent),
        Connective::Implies => Mark::Binary(Operator::Implies),
        Connective::ImpliedBy => Mark::Binary(Operator::ImpliedBy),
        Connective::NotAnd => Mark::Binary(Operator::NotAnd),
        Connective::NotOr => Mark::Binary(Operator::NotOr),
        Connective::NotEqual => Mark::Equality(Equality::Unequal),
    }
}

/// What the mark is in the grammar, and None for one that may stand in annotations alone.
pub fn mark_of_byte(mark: fof_lex::Mark) -> Option<Mark>
    ensures { result ≡ mark_of mark }
{
    match mark {
        fof_lex::Mark::OpenParenthesis => Some(Mark::Open(Bracket::Round)),
        fof_lex::Mark::CloseParenthesis => Some(Mark::Close(Bracket::Round)),
        fof_lex::Mark::OpenBracket => Some(Mark::Open(Bracket::Square)),
        fof_lex::Mark::CloseBracket => Some(Mark::Close(Bracket::Square)),
        fof_lex::Mark::OpenBrace => Some(Mark::Open(Bracket::Curly)),
        fof_lex::Mark::CloseBrace => Some(Mark::Close(Bracket::Curly)),
        fof_lex::Mark::Comma => Some(Mark::Comma),
        fof_lex::Mark::Stop => Some(Mark::Stop),
        fof_lex::Mark::Colon => Some(Mark::Colon),
        fof_lex::Mark::Tilde => Some(Mark::Not),
        fof_lex::Mark::Exclamation => Some(Mark::Quantifier(Quantifier::All)),
        fof_lex::Mark::Question => Some(Mark::Quantifier(Quantifier::Some)),
        fof_lex::Mark::Ampersand => Some(Mark::Binary(Operator::And)),
        fof_lex::Mark::Bar => Some(Mark::Binary(Operator::Or)),
        fof_lex::Mark::Equals => Some(Mark::Equality(Equality::Equal)),
        fof_lex::Mark::Semicolon
        | fof_lex::Mark::Less
        | fof_lex::Mark::Greater
        | fof_lex::Mark::At
        | fof_lex::Mark::Caret
        | fof_lex::Mark::Plus
        | fof_lex::Mark::Minus
        | fof_lex::Mark::Star
        | fof_lex::Mark::Slash
        | fof_lex::Mark::Backslash
        | fof_lex::Mark::Hash => None,
    }
}

/// What stands between the quotes.
fn between(text: &[u8]) -> &[u8]
    ensures { result.now ≡ between text.now }
{
    if text.len() < 2 {
        return &[];
    }
    &text[1..text.len() - 1]
}

/// The token of a kind with its text.
pub fn token_of(kind: Kind, text: &[u8]) -> Token<'_>
    ensures { token_view result ≡ token_of kind text.now }
{
    match kind {
        Kind::LowerWord => Token::Lower(text),
        Kind::UpperWord => Token::Upper(text),
        Kind::Quoted => Token::Quoted(between(text)),
        Kind::DistinctObject => Token::Distinct(text),
        Kind::DollarWord => Token::Dollar(text),
        Kind::Number => Token::Number(text),
        Kind::Connective(connective) => Token::Marked(mark_of_connective(connective)),
        Kind::Mark(mark) => match mark_of_byte(mark) {
            Some(mark) => Token::Marked(mark),
            None => Token::Other,
        },
    }
}
