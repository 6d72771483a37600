//! Symbols as a text spells them.

ghost use Rattle.std.specs.Prelude.{◌≡◌, ◌≤◌, ◌&&◌, false, not, eqb, length, option_map};
ghost use Rattle.std.specs.List.{prefix_len, list_all};
ghost use Rattle.fol_core.specs.Spelling.{is_lower_word, is_word_byte};
ghost use Rattle.gs3_text.specs.Reading.{Gives, is_escape, quoted_at, spelling_at, unescaped, place_in, function_of};
ghost use Rattle.gs3_text.specs.Spelled.{view};

use crate::fault::Fault;
use fol_core::Symbols;
use std::alloc::Global;

/// How a symbol stands in a text: as a word, or in quotes, as what stands between them.
#[derive(Clone, Copy)]
pub(crate) struct Spelling<'a> {
    pub quoted: bool,
    pub text: &'a [u8],
}

fn is_word_byte(b: u8) -> bool
    ensures { result ≡ is_word_byte b }
{
    b.is_ascii_lowercase() || b.is_ascii_uppercase() || b.is_ascii_digit() || b == b'_'
}

/// How many word bytes stand at the front.
fn word_len(bytes: &[u8]) -> usize
    ensures count { result ≡ prefix_len is_word_byte bytes.now }
    ensures within { result ≤ length bytes.now }
{
    for (i, b) in bytes.iter().enumerate() {
        if !is_word_byte(*b) {
            return i;
        }
    }
    bytes.len()
}

fn are_word_bytes(bytes: &[u8]) -> bool
    ensures { result ≡ list_all is_word_byte bytes.now }
{
    for b in bytes {
        if !is_word_byte(*b) {
            return false;
        }
    }
    true
}

fn is_lower_word(name: &[u8]) -> bool
    ensures { result ≡ is_lower_word name.now }
{
    match name {
        [b'a'..=b'z', rest @ ..] => are_word_bytes(rest),
        _ => false,
    }
}

/// Whether the byte is the closing quote.
fn closes(escape: bool, b: u8) -> bool
    ensures { result ≡ (not escape && eqb b 39) }
{
    !escape && b == b'\''
}

/// Whether the byte is a backslash before another byte.
fn is_escape(escape: bool, b: u8) -> bool
    ensures { result ≡ is_escape escape b }
{
    !escape && b == b'\\'
}

/// What stands before the closing quote, and the bytes behind it.
#[tactic(auto, using(crate::proofs::Quotes::quoted_step), unfolding(crate::specs::Reading::quoted_at))]
fn quoted_at(bytes: &[u8]) -> Option<(&[u8], &[u8])>
    ensures { option_map (λ x. (x.0.now, x.1.now)) result ≡ quoted_at false bytes.now }
{
    let mut escape = false;
    for (i, b) in bytes.iter().enumerate() {
        if closes(escape, *b) {
            return Some((&bytes[..i], &bytes[i + 1..]));
        }
        escape = is_escape(escape, *b);
    }
    None
}

/// The spelling of a symbol at the front.
#[tactic(auto, unfolding(crate::specs::Reading::spelling_at))]
pub(crate) fn spelling_at(bytes: &[u8]) -> Result<(Spelling, &[u8]), Fault>
    ensures { Gives (λ x. (view x.0, x.1.now)) result (spelling_at bytes.now) }
{
    match bytes {
        [] => Err(Fault::Malformed),
        [b'a'..=b'z', ..] => {
            let (text, rest) = bytes.split_at(word_len(bytes));
            Ok((
                Spelling {
                    quoted: false,
                    text,
                },
                rest,
            ))
        }
        [b'\'', inner @ ..] => match quoted_at(inner) {
            Some((text, rest)) => Ok((Spelling { quoted: true, text }, rest)),
            None => Err(Fault::Malformed),
        },
        [_, ..] => Err(Fault::Malformed),
    }
}

/// The name that is spelled so in quotes.
#[tactic(auto, unfolding(crate::specs::Reading::unescaped))]
fn unescape(alloc: Global, text: &[u8]) -> Result<Vec<u8>, Fault>
    ensures { Gives (λ name. name.items) result (unescaped false text.now) }
{
    let mut name = Vec::new(alloc);
    let mut escape = false;
    for b in text {
        let backslash = is_escape(escape, *b);
        if !backslash {
            if escape != (*b == b'\'' || *b == b'\\') {
                return Err(Fault::Malformed);
            }
            name.push(*b)?;
        }
        escape = backslash;
    }
    if escape {
        Err(Fault::Malformed)
    } else {
        Ok(name)
    }
}

/// The function symbol's number. No list of 2 ^ 32 arguments fits in memory.
fn find(symbols: &Symbols, name: &[u8], arity: usize) -> Result<u32, Fault>
    ensures { Gives (λ f. f) result (place_in symbols.now.functions name.now arity) }
{
    let Ok(arity) = u32::try_from(arity) else {
        return Err(Fault::OutOfMemory);
    };
    match symbols.function(name, arity) {
        Some(f) => Ok(f),
        None => Err(Fault::Malformed),
    }
}

/// The number of the function symbol that is spelled so.
#[tactic(auto, unfolding(crate::specs::Reading::function_of, crate::specs::Reading::quoted_name))]
pub(crate) fn function_of(
    alloc: Global,
    symbols: &Symbols,
    spelling: &Spelling,
    arity: usize,
) -> Result<u32, Fault>
    ensures { Gives (λ f. f) result (function_of symbols.now.functions (view spelling.now) arity) }
{
    if !spelling.quoted {
        return find(symbols, spelling.text, arity);
    }
    let name = unescape(alloc, spelling.text)?;
    if is_lower_word(&name) {
        return Err(Fault::Malformed);
    }
    find(symbols, &name, arity)
}
