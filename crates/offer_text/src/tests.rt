//! A term and an offer.

ghost use Rattle.std.specs.Prelude.{◌≡◌, IfOk, length};

use crate::{spell_free_term, spell_number, spell_offer};
use containers::{Items, Shared};
use fol_core::Symbols;
use free_terms::{FTerm, FTerms, Name};
use std::alloc::{AllocError, Global};
use unify::{Subst, empty, unify};

const X: Name = Name {
    segment: 12,
    count: 3,
};

fn one(alloc: Global, t: FTerm) -> Result<FTerms, AllocError>
    ensures { IfOk result (λ ts. length ts ≡ 1) }
{
    let mut ts = Items::new(alloc);
    ts.push(t)?;
    Shared::new(alloc, ts)
}

/// A Skolem symbol with the metavariable X as its argument, under the function symbol 0.
fn nested(alloc: Global) -> Result<FTerm, AllocError> {
    let name = Name {
        segment: 5,
        count: 1,
    };
    let skolem = FTerm::Skolem(name, one(alloc, FTerm::Meta(X))?);
    Ok(FTerm::App(0, one(alloc, skolem)?))
}

fn add_symbols(symbols: &mut Symbols) -> Result<(), AllocError> {
    symbols.intern_function(b"f", 1)?;
    symbols.intern_function(b"it's", 0)?;
    Ok(())
}

/// The offer that binds X to the function symbol 1.
fn bound(alloc: Global) -> Result<Subst, AllocError> {
    let constant = FTerm::App(1, Shared::new(alloc, Items::new(alloc))?);
    let left = one(alloc, FTerm::Meta(X))?;
    let right = one(alloc, constant)?;
    let found = unify(alloc, &empty(alloc), &left, &right)?;
    found.ok_or(AllocError)
}

fn text_of_both(alloc: Global, symbols: &Symbols) -> Result<Vec<u8>, AllocError> {
    let term = nested(alloc)?;
    let offer = bound(alloc)?;
    let mut out = Vec::new(alloc);
    spell_free_term(symbols, &term, &mut out)?;
    spell_number(b" ", 7u32, &mut out)?;
    spell_offer(symbols, &offer, &mut out)?;
    Ok(out)
}

fn text(alloc: Global) -> Result<Vec<u8>, AllocError> {
    let mut symbols = Symbols::new(alloc);
    match add_symbols(&mut symbols) {
        Ok(()) => text_of_both(alloc, &symbols),
        Err(error) => Err(error),
    }
}

#[test]
fn spells_a_term_a_number_and_an_offer(rt: HostRuntime) -> Result<(), AllocError> {
    let text = text(rt.alloc())?;
    assert!(rt; text.as_slice() == b"f(!5.1(?12.3)) 7{?12.3='it\\'s'}".as_slice());
    Ok(())
}
