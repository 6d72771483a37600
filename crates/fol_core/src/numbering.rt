//! Symbols numbered in the order in which they came.
ghost use Rattle.std.specs.Prelude.{◌≡◌, ◌≤◌, ◌++◌, ◌∷◌, [], length, slice_get, option_map, IfSome, IfOk, OnOk, OnErr};
ghost use Rattle.std.specs.Option.{option_copied};
ghost use Rattle.fol_core.specs.Symbol.{IsSymbolName, IsNumberOf, IsAt, IsNowhere, Interns, AreSymbols};
ghost use Rattle.fol_core.specs.SymbolList.{number_in, numbers_at, IsRising, IsPlaceOf, HasAdded};

use containers::Log;
use indexmap::IndexMap;
use std::alloc::{AllocError, Global};
use std::marker::Model;

/// A number of arguments, and the number of the symbol of one name that takes so many.
#[derive(Clone, Copy)]
pub(crate) struct Numbered {
    arity: u32,
    number: u32,
}

/// The place of a symbol's name among the names, and its number of arguments.
#[derive(Clone, Copy)]
pub(crate) struct Listed {
    name: usize,
    arity: u32,
}

/// Symbols, numbered from 0 in the order in which they came.
#[derive(Drop)]
pub(crate) struct Numbering {
    /// Each name with its numbers of arguments, which rise, so that one of them is found by halving.
    names: IndexMap<Vec<u8>, Vec<Numbered>>,
    symbols: Log<Listed>,
}

impl Model for Numbering {
    ghost use Rattle.std.specs.Prelude.{List};
    ghost use Rattle.fol_core.specs.Symbol.{Symbol, symbols_code};

    ghost Value = { List Symbol };

    ghost coded = { symbols_code };

    ghost use Rattle.fol_core.specs.SymbolList.{symbols_of, IsNumbering};

    ghost view = { symbols_of };

    ghost invariant = { IsNumbering };
}

/// Where the first entry stands whose number of arguments is not below `arity`, in a list in which these rise.
fn place_of(numbers: &[Numbered], arity: u32) -> usize
    requires { IsRising numbers.now }
    ensures within { result ≤ length numbers.now }
    ensures place { IsPlaceOf numbers.now arity result }
{
    numbers.partition_point(|entry| entry.arity < arity)
}

fn number_in(numbers: &[Numbered], arity: u32) -> Option<u32>
    requires { IsRising numbers.now }
    ensures { result ≡ number_in numbers.now arity }
{
    match numbers.get(place_of(numbers, arity)) {
        Some(entry) if entry.arity == arity => Some(entry.number),
        Some(_) => None,
        None => None,
    }
}

/// The arities of a name, with their numbers.
fn numbers_at<'a>(names: &'a IndexMap<Vec<u8>, Vec<Numbered>>, name: &[u8]) -> &'a [Numbered]
    ensures { result.now ≡ numbers_at names.now.entries name.now }
{
    match names.get(name) {
        Some(numbers) => numbers.as_slice(),
        None => &[],
    }
}

/// The list with a new entry at its place.
fn with_number(
    alloc: Global,
    numbers: &[Numbered],
    new: Numbered,
) -> Result<Vec<Numbered>, AllocError>
    requires { IsRising numbers.now }
    ensures added { IfOk result (λ v. HasAdded numbers.now new v.items) }
    ensures rising { IfOk result (λ v. IsRising v.items) }
{
    let place = place_of(numbers, new.arity);
    let mut out = Vec::new(alloc);
    out.extend_from_slice(numbers)?;
    out.insert(place, new)?;
    Ok(out)
}

impl Numbering {
    pub fn new(alloc: Global) -> Numbering
        ensures { result ≡ [] }
    {
        Numbering {
            names: IndexMap::new(alloc),
            symbols: Log::new(alloc),
        }
    }

    /// What every list of symbols keeps.
    pub fn keeps(&self)
        ensures { AreSymbols self.now }
    {
        let _ = &self.symbols;
    }

    /// The number of the symbol. It takes no memory.
    pub fn find(&self, name: &[u8], arity: u32) -> Option<u32>
        ensures { IsNumberOf self.now (name.now, arity) result }
    {
        number_in(numbers_at(&self.names, name), arity)
    }

    pub fn name(&self, number: u32) -> Option<&[u8]>
        ensures name { option_copied result ≡ option_map (λ s. s.0) (slice_get self.now number) }
        ensures printable { IfSome result (λ w. IsSymbolName w.now) }
    {
        let symbol = self.symbols.get(number as usize)?;
        let (name, _) = self.names.get_index(symbol.name)?;
        Some(name.as_slice())
    }

    pub fn arity(&self, number: u32) -> Option<u32>
        ensures { result ≡ option_map (λ s. s.1) (slice_get self.now number) }
    {
        let symbol = self.symbols.get(number as usize)?;
        Some(symbol.arity)
    }

    /// The number of the symbol, which is put at the end where it is new.
    pub fn intern(&mut self, name: &[u8], arity: u32) -> Result<u32, AllocError>
        requires { IsSymbolName name.now }
        ensures number { IfOk result (IsAt self.new (name.now, arity)) }
        ensures ok { OnOk result (Interns self.old (name.now, arity) self.new) }
        ensures err { OnErr result (self.new ≡ self.old) }
    {
        match self.find(name, arity) {
            Some(number) => Ok(number),
            None => self.add(name, arity),
        }
    }

    /// Puts a new symbol at the end. There is no room for one with the number 2 ^ 32 - 1.
    fn add(&mut self, name: &[u8], arity: u32) -> Result<u32, AllocError>
        requires named { IsSymbolName name.now }
        requires is_new { IsNowhere self.old (name.now, arity) }
        ensures number { IfOk result (λ n. n ≡ length self.old) }
        ensures ok { OnOk result (self.new ≡ self.old ++ (name.now, arity) ∷ []) }
        ensures err { OnErr result (self.new ≡ self.old) }
    {
        let alloc = self.symbols.allocator();
        let len = self.symbols.len();
        if len >= u32::MAX as usize {
            return Err(AllocError);
        }
        let number = len as u32;
        let known = numbers_at(&self.names, name);
        let numbers = with_number(alloc, known, Numbered { arity, number })?;
        let mut key = Vec::new(alloc);
        key.extend_from_slice(name)?;
        self.symbols.reserve(1)?;
        let (place, _) = self.names.insert_full(key, numbers)?;
        self.symbols.put(Listed { name: place, arity });
        Ok(number)
    }
}
