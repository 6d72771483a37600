ghost use Rattle.std.specs.Prelude.{◌≡◌, ◌↔◌, ◌<◌, [], length, slice_get, option_map, IsSome, IfSome, IfOk, OnOk};
ghost use Rattle.std.specs.Prelude.{OnErr};
ghost use Rattle.std.specs.Option.{option_copied};
ghost use Rattle.fol_core.specs.Symbol.{IsSymbolName, IsNumberOf, IsAt, Interns, AreSymbols};

use crate::numbering::Numbering;
use std::alloc::{AllocError, Global};
use std::marker::Model;

/// The function symbols and the predicate symbols of a problem.
///
/// A symbol is a name of one or more bytes from 32 to 126, and a number of arguments. Symbols of the two kinds are
/// numbered apart, each kind from 0 in the order in which its symbols came, and no symbol stands twice in its list. A
/// look-up takes no memory.
#[derive(Drop)]
pub struct Symbols {
    functions: Numbering,
    predicates: Numbering,
}

impl Model for Symbols {
    ghost use Rattle.fol_core.specs.Symbol.{SymbolTable, table_code};

    ghost Value = { SymbolTable };

    ghost coded = { table_code };

    ghost view = { λ s. record { functions = s.functions; predicates = s.predicates } };
}

impl Symbols {
    pub fn new(alloc: Global) -> Symbols
        ensures functions { result.functions ≡ [] }
        ensures predicates { result.predicates ≡ [] }
    {
        Symbols {
            functions: Numbering::new(alloc),
            predicates: Numbering::new(alloc),
        }
    }

    /// What every table keeps: each symbol has a name of printable bytes, and none stands twice. It does nothing.
    pub fn keeps(&self)
        ensures functions { AreSymbols self.now.functions }
        ensures predicates { AreSymbols self.now.predicates }
    {
        self.functions.keeps();
        self.predicates.keeps();
    }

    /// The number of a function symbol.
    pub fn function(&self, name: &[u8], arity: u32) -> Option<u32>
        ensures { IsNumberOf self.now.functions (name.now, arity) result }
    {
        self.functions.find(name, arity)
    }

    /// The number of a predicate symbol.
    pub fn predicate(&self, name: &[u8], arity: u32) -> Option<u32>
        ensures { IsNumberOf self.now.predicates (name.now, arity) result }
    {
        self.predicates.find(name, arity)
    }

    pub fn function_name(&self, number: u32) -> Option<&[u8]>
        ensures name { option_copied result ≡ option_map (λ s. s.0) (slice_get self.now.functions number) }
        ensures within { IsSome result ↔ (number < length self.now.functions) }
        ensures printable { IfSome result (λ w. IsSymbolName w.now) }
    {
        self.functions.name(number)
    }

    pub fn predicate_name(&self, number: u32) -> Option<&[u8]>
        ensures name { option_copied result ≡ option_map (λ s. s.0) (slice_get self.now.predicates number) }
        ensures within { IsSome result ↔ (number < length self.now.predicates) }
        ensures printable { IfSome result (λ w. IsSymbolName w.now) }
    {
        self.predicates.name(number)
    }

    pub fn function_arity(&self, number: u32) -> Option<u32>
        ensures arity { result ≡ option_map (λ s. s.1) (slice_get self.now.functions number) }
        ensures within { IsSome result ↔ (number < length self.now.functions) }
    {
        self.functions.arity(number)
    }

    pub fn predicate_arity(&self, number: u32) -> Option<u32>
        ensures arity { result ≡ option_map (λ s. s.1) (slice_get self.now.predicates number) }
        ensures within { IsSome result ↔ (number < length self.now.predicates) }
    {
        self.predicates.arity(number)
    }

    /// The number of a function symbol, which is put at the end of its list where it is new. A list with 2 ^ 32 - 1
    /// symbols is full, and a new one is then refused as by want of memory.
    pub fn intern_function(&mut self, name: &[u8], arity: u32) -> Result<u32, AllocError>
        requires { IsSymbolName name.now }
        ensures number { IfOk result (IsAt self.new.functions (name.now, arity)) }
        ensures ok { OnOk result (Interns self.old.functions (name.now, arity) self.new.functions) }
        ensures predicates { self.new.predicates ≡ self.old.predicates }
        ensures err { OnErr result (self.new ≡ self.old) }
    {
        self.functions.intern(name, arity)
    }

    /// The same of a predicate symbol.
    pub fn intern_predicate(&mut self, name: &[u8], arity: u32) -> Result<u32, AllocError>
        requires { IsSymbolName name.now }
        ensures number { IfOk result (IsAt self.new.predicates (name.now, arity)) }
        ensures ok { OnOk result (Interns self.old.predicates (name.now, arity) self.new.predicates) }
        ensures functions { self.new.functions ≡ self.old.functions }
        ensures err { OnErr result (self.new ≡ self.old) }
    {
        self.predicates.intern(name, arity)
    }
}
