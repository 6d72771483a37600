//! How long the text of a term is, and how deep it nests, with all bindings of an offer applied.

ghost use Rattle.std.specs.Prelude.{◌≡◌, ◌+◌, min, max, suc, IfOk, OnOk, Some};
ghost use Rattle.std.specs.HashMap.{get, Updates};
ghost use Rattle.free_terms.specs.Free as free;
ghost use Rattle.free_terms.specs.View.{name_of, term_of, terms_of};
ghost use Rattle.unify.specs.Index.{is_same};
ghost use Rattle.unify.specs.Measure as spec;
ghost use Rattle.unify.specs.Measure.{AreMeasured, AreOfAny, HasExtent, HaveExtent, IsExtent, in_parentheses};
ghost use Rattle.unify.specs.Occurs.{AllSettled, AllSettledInSome, Settled};
ghost use Rattle.unify.specs.Offers.{IsOffer};
ghost use Rattle.unify.specs.View.{offer_of};

use crate::bindings::Bindings;
use crate::subst::Subst;
use free_terms::{FTerm, FTerms, Name};
use std::alloc::{AllocError, Global};
use std::collections::HashMap;

/// How many bytes each thing has that terms are written with.
#[derive(Drop)]
pub struct Lengths {
    /// Of each function symbol, by its number.
    pub symbols: Vec<u64>,
    /// Of what stands for a Skolem term, by its symbol.
    pub skolems: HashMap<Name, u64>,
    /// Of a symbol that is not listed, and of what stands for an unbound metavariable.
    pub other: u64,
}

/// How many bytes the text of a term has, and how deep the term nests.
#[derive(Clone, Copy)]
pub struct Extent {
    pub length: u64,
    pub depth: u64,
}

/// The extents of the values of metavariables under one offer, as far as they were counted.
pub type Extents = HashMap<Name, Extent>;

/// No extents yet, for any offer. It takes no memory.
pub fn no_extents(alloc: Global) -> Extents
    ensures { AreOfAny result }
{
    HashMap::new(alloc)
}

/// The extent of the term with all bindings applied, where a Skolem term stands as one symbol. Length and depth are
/// counted up to `most`. The term is not built, and what a metavariable is bound to is gone through once for all calls
/// that are given the same `noted`: so texts of any length are counted in the time that it takes to go through the
/// offer and the terms. An error is want of memory; what is then noted is not to be used again.
pub fn measure(
    s: &Subst,
    lengths: &Lengths,
    t: &FTerm,
    most: u64,
    noted: &mut Extents,
) -> Result<Extent, AllocError>
    requires { AreMeasured (offer_of s.now) lengths.now most noted.old }
    ensures extent { IfOk result (HasExtent (offer_of s.now) lengths.now most (term_of t.now)) }
    ensures noted { IfOk result (λ _. AreMeasured (offer_of s.now) lengths.now most noted.new) }
{
    let s = s.bindings();
    measure_term(s, s.len(), lengths, most, t, noted)
}

/// The same along chains of at most `m` bindings, with the extents of the values that are noted.
#[cycle(measure)]
fn measure_term(
    s: &Bindings,
    m: usize,
    lengths: &Lengths,
    most: u64,
    t: &FTerm,
    done: &mut Extents,
) -> Result<Extent, AllocError>
    requires offer { IsOffer (offer_of s.now) }
    requires settled { AllSettled m (offer_of s.now) (term_of t.now) }
    requires done { AreMeasured (offer_of s.now) lengths.now most done.old }
    ensures extent { IfOk result (HasExtent (offer_of s.now) lengths.now most (term_of t.now)) }
    ensures done { IfOk result (λ _. AreMeasured (offer_of s.now) lengths.now most done.new) }
{
    match t {
        FTerm::Bound(_) => Ok(alone(0, most)),
        FTerm::Meta(x) => measure_value(s, m, lengths, most, x, done),
        FTerm::Skolem(x, _) => Ok(alone(skolem_length(lengths, x), most)),
        FTerm::App(f, us) => {
            let arguments = measure_arguments(s, m, lengths, most, us, done)?;
            Ok(behind(symbol_length(lengths, *f), arguments, most))
        }
    }
}

#[cycle(measure)]
fn measure_value(
    s: &Bindings,
    m: usize,
    lengths: &Lengths,
    most: u64,
    x: &Name,
    done: &mut Extents,
) -> Result<Extent, AllocError>
    requires offer { IsOffer (offer_of s.now) }
    requires settled { Settled m (offer_of s.now) (name_of x.now) }
    requires done { AreMeasured (offer_of s.now) lengths.now most done.old }
    ensures extent { IfOk result (HasExtent (offer_of s.now) lengths.now most (free.metavar (name_of x.now))) }
    ensures done { IfOk result (λ _. AreMeasured (offer_of s.now) lengths.now most done.new) }
{
    if let Some(extent) = noted(done, x) {
        return Ok(extent);
    }
    match s.value(*x) {
        Some(v) => {
            let extent = measure_term(s, m - 1, lengths, most, v, done)?;
            note(done, x, extent)?;
            Ok(extent)
        }
        None => Ok(alone(lengths.other, most)),
    }
}

/// The extent of a symbol's arguments, with a comma or the closing parenthesis behind each.
#[cycle(measure)]
fn measure_arguments(
    s: &Bindings,
    m: usize,
    lengths: &Lengths,
    most: u64,
    us: &FTerms,
    done: &mut Extents,
) -> Result<Extent, AllocError>
    requires offer { IsOffer (offer_of s.now) }
    requires settled { AllSettledInSome m (offer_of s.now) (terms_of us.now) }
    requires done { AreMeasured (offer_of s.now) lengths.now most done.old }
    ensures extent { IfOk result (HaveExtent (offer_of s.now) lengths.now most (terms_of us.now)) }
    ensures done { IfOk result (λ _. AreMeasured (offer_of s.now) lengths.now most done.new) }
{
    let mut all = Extent {
        length: 0,
        depth: 0,
    };
    for u in us.get().as_slice() {
        let part = measure_term(s, m, lengths, most, u, done)?;
        all = followed_by(all, part, most);
    }
    Ok(all)
}

/// The extent of a symbol without arguments.
fn alone(length: u64, most: u64) -> Extent
    ensures { IsExtent most length 1 result }
{
    Extent {
        length: length.min(most),
        depth: 1.min(most),
    }
}

/// The extent of arguments, and then one more, with a comma or the closing parenthesis behind it.
fn followed_by(all: Extent, part: Extent, most: u64) -> Extent
    ensures { IsExtent most (suc (all.length + part.length)) (max all.depth part.depth) result }
{
    let length = all.length.saturating_add(part.length).saturating_add(1);
    Extent {
        length: length.min(most),
        depth: all.depth.max(part.depth).min(most),
    }
}

/// The extent of a symbol and its arguments.
fn behind(symbol: u64, arguments: Extent, most: u64) -> Extent
    ensures { IsExtent most (symbol + in_parentheses arguments.length) (suc arguments.depth) result }
{
    let length = if arguments.length == 0 {
        symbol
    } else {
        symbol.saturating_add(arguments.length).saturating_add(1)
    };
    Extent {
        length: length.min(most),
        depth: arguments.depth.saturating_add(1).min(most),
    }
}

fn symbol_length(lengths: &Lengths, symbol: u32) -> u64
    ensures { result ≡ spec.symbol_length lengths.now symbol }
{
    match lengths.symbols.get(symbol as usize) {
        Some(length) => *length,
        None => lengths.other,
    }
}

fn skolem_length(lengths: &Lengths, x: &Name) -> u64
    ensures { result ≡ spec.skolem_length lengths.now (name_of x.now) }
{
    match lengths.skolems.get(x) {
        Some(length) => *length,
        None => lengths.other,
    }
}

/// What is noted of the name. Apart from the walk, so that the walk takes less stack.
#[inline(never)]
fn noted(done: &Extents, x: &Name) -> Option<Extent>
    ensures { result ≡ get is_same done.now x.now }
{
    match done.get(x) {
        Some(extent) => Some(*extent),
        None => None,
    }
}

/// Notes the extent. Apart from the walk, so that the walk takes less stack.
#[inline(never)]
fn note(done: &mut Extents, x: &Name, extent: Extent) -> Result<(), AllocError>
    ensures { OnOk result (Updates is_same done.old done.new x.now (Some extent)) }
{
    done.insert(*x, extent)?;
    Ok(())
}
