//! How symbols and terms are written in a proof.

ghost use Rattle.std.specs.Prelude.{◌≡◌, ◌++◌, OnOk, OnErr};
ghost use Rattle.std.specs.List.{list_all, flat_map};
ghost use Rattle.fol_core.specs.Spelling.{is_word_byte, is_lower_word, escaped, spelled_symbol, spelled_param, spelled};
ghost use Rattle.fol_core.specs.Spelling.{spelled_arguments, IsOver, AreOver, IsGrown};
ghost use Rattle.fol_core.specs.View.{term_of, terms_of};

use crate::symbols::Symbols;
use crate::term::Term;
use itoa::Buffer;
use std::alloc::AllocError;

/// Whether the byte is a letter, a digit or `_`.
fn is_word_byte(byte: u8) -> bool
    ensures { result ≡ is_word_byte byte }
{
    matches!(byte, b'a'..=b'z' | b'A'..=b'Z' | b'0'..=b'9' | b'_')
}

fn are_word_bytes(bytes: &[u8]) -> bool
    ensures { result ≡ list_all is_word_byte bytes.now }
{
    for byte in bytes {
        if !is_word_byte(*byte) {
            return false;
        }
    }
    true
}

/// Whether the name is a small letter and then letters, digits and `_`.
fn is_lower_word(name: &[u8]) -> bool
    ensures { result ≡ is_lower_word name.now }
{
    match name {
        [] => false,
        [first, rest @ ..] => first.is_ascii_lowercase() && are_word_bytes(rest),
    }
}

/// Appends the name with a backslash before each quote and each backslash.
#[tactic(auto, using(crate::proofs::Grown::growing))]
fn escape(name: &[u8], out: &mut Vec<u8>) -> Result<(), AllocError>
    ensures ok { OnOk result (out.new.items ≡ out.old.items ++ flat_map escaped name.now) }
    ensures grows { IsGrown out.old.items out.new.items }
{
    for byte in name {
        if *byte == b'\'' || *byte == b'\\' {
            out.push(b'\\')?;
        }
        out.push(*byte)?;
    }
    Ok(())
}

#[tactic(auto, using(crate::proofs::Grown::growing))]
fn append_symbol(name: &[u8], out: &mut Vec<u8>) -> Result<(), AllocError>
    ensures ok { OnOk result (out.new.items ≡ out.old.items ++ spelled_symbol name.now) }
    ensures grows { IsGrown out.old.items out.new.items }
{
    if is_lower_word(name) {
        return out.extend_from_slice(name);
    }
    out.push(b'\'')?;
    escape(name, out)?;
    out.push(b'\'')?;
    Ok(())
}

/// Appends the spelling of a symbol of this name: a lower word as it is, and any other name in single quotes. After an
/// error `out` is as it was.
#[tactic(auto, using(crate::proofs::Grown::growing))]
pub fn spell_symbol(name: &[u8], out: &mut Vec<u8>) -> Result<(), AllocError>
    ensures ok { OnOk result (out.new.items ≡ out.old.items ++ spelled_symbol name.now) }
    ensures err { OnErr result (out.new.items ≡ out.old.items) }
{
    let len = out.len();
    let done = append_symbol(name, out);
    if done.is_err() {
        out.truncate(len);
    }
    done
}

#[tactic(auto, using(crate::proofs::Grown::growing))]
fn append_param(param: u64, out: &mut Vec<u8>) -> Result<(), AllocError>
    ensures ok { OnOk result (out.new.items ≡ out.old.items ++ spelled_param param) }
    ensures grows { IsGrown out.old.items out.new.items }
{
    let mut digits = Buffer::new();
    out.push(b'#')?;
    out.extend_from_slice(digits.format(param).as_bytes())
}

#[cycle(append)]
#[tactic(auto, using(crate::proofs::Grown::growing))]
fn append_term(symbols: &Symbols, term: &Term, out: &mut Vec<u8>) -> Result<(), AllocError>
    requires { IsOver symbols.now.functions (term_of term.now) }
    ensures ok { OnOk result (out.new.items ≡ out.old.items ++ spelled symbols.now.functions (term_of term.now)) }
    ensures grows { IsGrown out.old.items out.new.items }
{
    match term {
        Term::Bound(_) => Ok(()),
        Term::Param(param) => append_param(*param, out),
        Term::App(function, arguments) => {
            append_symbol(symbols.function_name(*function).unwrap_or(b""), out)?;
            append_arguments(symbols, arguments.get().as_slice(), out)
        }
    }
}

#[cycle(append)]
#[tactic(auto, using(crate::proofs::Grown::growing))]
fn append_arguments(
    symbols: &Symbols,
    arguments: &[Term],
    out: &mut Vec<u8>,
) -> Result<(), AllocError>
    requires { AreOver symbols.now.functions (terms_of arguments.now) }
    ensures ok { OnOk result (out.new.items
        ≡ out.old.items ++ spelled_arguments symbols.now.functions (terms_of arguments.now)) }
    ensures grows { IsGrown out.old.items out.new.items }
{
    let mut opened = false;
    for argument in arguments {
        out.push(if opened { b',' } else { b'(' })?;
        opened = true;
        append_term(symbols, argument, out)?;
    }
    if opened {
        out.push(b')')?;
    }
    Ok(())
}

/// Appends the spelling of a closed term: a parameter `#n`, or a function symbol with its arguments in parentheses.
/// After an error `out` is as it was.
#[tactic(auto, using(crate::proofs::Grown::growing))]
pub fn spell_term(symbols: &Symbols, term: &Term, out: &mut Vec<u8>) -> Result<(), AllocError>
    requires { IsOver symbols.now.functions (term_of term.now) }
    ensures ok { OnOk result (out.new.items ≡ out.old.items ++ spelled symbols.now.functions (term_of term.now)) }
    ensures err { OnErr result (out.new.items ≡ out.old.items) }
{
    let len = out.len();
    let done = append_term(symbols, term, out);
    if done.is_err() {
        out.truncate(len);
    }
    done
}
