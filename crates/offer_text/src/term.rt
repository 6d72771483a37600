//! The text of terms with metavariables and Skolem terms.

ghost use Rattle.std.specs.Prelude.{◌≡◌, ◌++◌, OnOk, OnErr};
ghost use Rattle.fol_core.specs.Spelling.{spelled_symbol, name_in, IsGrown};
ghost use Rattle.free_terms.specs.View.{name_of, term_of, terms_of};
ghost use Rattle.offer_text.specs.Text.{name_text, term_text, arguments_text};

use crate::number::spell_number;
use fol_core::{Symbols, spell_symbol};
use free_terms::{FTerm, Name};
use std::alloc::AllocError;

/// Appends the mark and the name.
#[tactic(auto, using(fol_core::proofs::Grown::growing))]
pub(crate) fn append_name(mark: &[u8], name: Name, out: &mut Vec<u8>) -> Result<(), AllocError>
    ensures ok { OnOk result (out.new.items ≡ out.old.items ++ (mark.now ++ name_text (name_of name))) }
    ensures grows { IsGrown out.old.items out.new.items }
{
    spell_number(mark, name.segment, out)?;
    spell_number(b".", name.count, out)
}

/// Appends the function symbol of that number.
#[tactic(auto, using(fol_core::proofs::Grown::growing))]
fn append_function(symbols: &Symbols, function: u32, out: &mut Vec<u8>) -> Result<(), AllocError>
    ensures ok { OnOk result (out.new.items
        ≡ out.old.items ++ spelled_symbol (name_in symbols.now.functions function)) }
    ensures grows { IsGrown out.old.items out.new.items }
{
    spell_symbol(symbols.function_name(function).unwrap_or(b""), out)
}

#[cycle(append)]
#[tactic(auto, using(fol_core::proofs::Grown::growing))]
pub(crate) fn append_term(
    symbols: &Symbols,
    term: &FTerm,
    out: &mut Vec<u8>,
) -> Result<(), AllocError>
    ensures ok { OnOk result (out.new.items ≡ out.old.items ++ term_text symbols.now.functions (term_of term.now)) }
    ensures grows { IsGrown out.old.items out.new.items }
{
    match term {
        FTerm::Bound(_) => Ok(()),
        FTerm::Meta(name) => append_name(b"?", *name, out),
        FTerm::Skolem(name, arguments) => {
            append_name(b"!", *name, out)?;
            append_arguments(symbols, arguments.get().as_slice(), out)
        }
        FTerm::App(function, arguments) => {
            append_function(symbols, *function, out)?;
            append_arguments(symbols, arguments.get().as_slice(), out)
        }
    }
}

/// Appends the arguments in parentheses, and nothing where there is none.
#[cycle(append)]
#[tactic(auto, using(fol_core::proofs::Grown::growing))]
fn append_arguments(
    symbols: &Symbols,
    arguments: &[FTerm],
    out: &mut Vec<u8>,
) -> Result<(), AllocError>
    ensures ok { OnOk result (out.new.items
        ≡ out.old.items ++ arguments_text symbols.now.functions (terms_of arguments.now)) }
    ensures grows { IsGrown out.old.items out.new.items }
{
    let mut opened = false;
    for argument in arguments {
        out.push(if opened { b',' } else { b'(' })?;
        opened = true;
        append_term(symbols, argument, out)?;
    }
    if opened {
        out.push(b')')?;
    }
    Ok(())
}

/// Appends the text of a term: a metavariable as `?b.k`, a Skolem term as `!b.k(..)`, b the segment that made it and k
/// its number there, and any other term as in a proof's text. It is for terms that hold no bound variable: one has no
/// text. After an error `out` is as it was.
#[tactic(auto, using(fol_core::proofs::Grown::growing))]
pub fn spell_free_term(symbols: &Symbols, term: &FTerm, out: &mut Vec<u8>) -> Result<(), AllocError>
    ensures ok { OnOk result (out.new.items ≡ out.old.items ++ term_text symbols.now.functions (term_of term.now)) }
    ensures err { OnErr result (out.new.items ≡ out.old.items) }
{
    let len = out.len();
    let done = append_term(symbols, term, out);
    if done.is_err() {
        out.truncate(len);
    }
    done
}
