//! Texts with their tokens.

use crate::text::{LexError, lex};
use crate::token::{Connective, Kind, Mark, Token};
use std::test::Fail;

fn token(kind: Kind, start: u64, end: u64) -> Token {
    Token { kind, start, end }
}

#[test]
fn reads_each_kind(rt: HostRuntime) -> Result<(), Fail> {
    let text = b"p_1 X2 'a\\'\\\\' \"\" $$x -1.5E-3<~>\\";
    let tokens = lex(rt.alloc(), text.as_slice())?;
    let expected = [
        token(Kind::LowerWord, 0, 3),
        token(Kind::UpperWord, 4, 6),
        token(Kind::Quoted, 7, 14),
        token(Kind::DistinctObject, 15, 17),
        token(Kind::DollarWord, 18, 21),
        token(Kind::Number, 22, 29),
        token(Kind::Connective(Connective::NotEquivalent), 29, 32),
        token(Kind::Mark(Mark::Backslash), 32, 33),
    ];
    assert_eq!(rt; tokens.as_slice(), expected.as_slice());
    Ok(())
}

#[test]
fn passes_over_blanks_and_comments(rt: HostRuntime) -> Result<(), Fail> {
    let text = b"\t/* * / \xe9 **/-x% \xe9";
    let tokens = lex(rt.alloc(), text.as_slice())?;
    let expected = [
        token(Kind::Mark(Mark::Minus), 13, 14),
        token(Kind::LowerWord, 14, 15),
    ];
    assert_eq!(rt; tokens.as_slice(), expected.as_slice());
    Ok(())
}

#[test]
fn refuses_at_the_first_byte_of_no_token(rt: HostRuntime) {
    let rows = [
        (b"p $X".as_slice(), 2),
        (b"''".as_slice(), 0),
        (b"p('a".as_slice(), 2),
        (b"'\\a'".as_slice(), 0),
        (b"p /*/".as_slice(), 2),
        (b"1 \xe9".as_slice(), 2),
    ];
    for (text, offset) in rows {
        let refused = lex(rt.alloc(), text).err();
        assert_eq!(rt; refused, Some(LexError::Bad { offset }), "at {offset}");
    }
}
