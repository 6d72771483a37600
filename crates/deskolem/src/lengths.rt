//! How long the spellings of symbols and parameters are.

ghost use Rattle.std.specs.Prelude.{Some, IfOk, OnOk};
ghost use Rattle.std.specs.HashMap.{Updates};
ghost use Rattle.unify.specs.Index.{is_same};
ghost use Rattle.deskolem.specs.Sums.{AreLengths};
ghost use Rattle.deskolem.specs.Spans.{AreSpans, AreSymbolLengths};
ghost use Rattle.deskolem.specs.View.{names_of};

use crate::count::digits;
use crate::parameters::Parameters;
use fol_core::{Symbols, spell_symbol};
use free_terms::Name;
use std::alloc::{AllocError, Global};
use std::collections::HashMap;
use unify::Lengths;

/// For each function symbol, how many bytes its spelling has.
#[tactic(auto, using(crate::proofs::Spelled::one_more, crate::proofs::Spelled::all_listed))]
fn symbol_lengths(alloc: Global, symbols: &Symbols) -> Result<Vec<u64>, AllocError>
    ensures { IfOk result (λ lengths. AreSymbolLengths symbols.now.functions lengths.items) }
{
    let mut lengths = Vec::new(alloc);
    let mut word = Vec::new(alloc);
    let mut number = 0;
    while let Some(name) = symbols.function_name(number) {
        word.clear();
        spell_symbol(name, &mut word)?;
        lengths.push(word.len() as u64)?;
        let Some(next) = number.checked_add(1) else {
            return Err(AllocError);
        };
        number = next;
    }
    Ok(lengths)
}

/// For each Skolem symbol, how many bytes its parameter has.
#[tactic(auto, using(crate::proofs::Spanned::none_spanned))]
fn skolem_lengths(alloc: Global, names: &Parameters) -> Result<HashMap<Name, u64>, AllocError>
    ensures { IfOk result (AreSpans names.now names.now) }
{
    let mut lengths = HashMap::new(alloc);
    for name in names.as_slice() {
        let length = digits(names.number(name)) + 1;
        put(&mut lengths, name, length)?;
    }
    Ok(lengths)
}

/// How many bytes each thing has that the proof's terms are written with.
pub(crate) fn lengths_of(
    alloc: Global,
    symbols: &Symbols,
    names: &Parameters,
) -> Result<Lengths, AllocError>
    ensures { IfOk result (AreLengths symbols.now.functions (names_of names.now)) }
{
    Ok(Lengths {
        symbols: symbol_lengths(alloc, symbols)?,
        skolems: skolem_lengths(alloc, names)?,
        other: 2,
    })
}

fn put(lengths: &mut HashMap<Name, u64>, name: &Name, length: u64) -> Result<(), AllocError>
    ensures { OnOk result (Updates is_same lengths.old lengths.new name.now (Some length)) }
{
    lengths.insert(*name, length)?;
    Ok(())
}
