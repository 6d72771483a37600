//! Atoms with their symbols' numbers.

ghost use Rattle.std.specs.Prelude.{◌≡◌, IfOk, option_map};
ghost use Rattle.fol_core.specs.View.{formula_of};
ghost use Rattle.fol_core.specs.Symbol.{IsSymbolName};
ghost use Rattle.fof_parse.specs.declared.token.Equality.{Equality};
ghost use Rattle.fof_parse.specs.Grammar.{word, defined, atom, equality};
ghost use Rattle.fof_parse.specs.Problem.{truth};
ghost use Rattle.fof_parse.specs.Reader.Views.{symbol_of, raw_of, raws_of};
ghost use Rattle.fof_parse.specs.Reader.Parsing.{IsProperSymbol, IsProperTerm, AreProperTerms};
ghost use Rattle.fof_parse.specs.Reader.Building.{names, state_of, Built};

use crate::build::{Draft, arity, has_backslash, term, terms, unescaped};
use crate::refusal::BadKind;
use crate::term::{Raw, Symbol};
use containers::Items;
use fol_core::Formula;
use std::alloc::{AllocError, Global};

/// `$true` or `$false` as a whole atom.
fn truth(word: &[u8], arguments: &Items<Raw<'_>>) -> Option<Formula>
    ensures { option_map formula_of result ≡ truth word.now (raws_of arguments.now) }
{
    if arguments.len() > 0 {
        return None;
    }
    if word == b"$true".as_slice() {
        Some(Formula::Verum)
    } else if word == b"$false".as_slice() {
        Some(Formula::Falsum)
    } else {
        None
    }
}

/// The atom of a word with `$`. Its formula is of use where it has no fault.
fn dollar_atom(
    alloc: Global,
    draft: &mut Draft,
    scope: &[&[u8]],
    word: &[u8],
    arguments: &Items<Raw<'_>>,
) -> Result<Formula, AllocError>
    requires { AreProperTerms (raws_of arguments.now) }
    ensures { IfOk result (λ a. Built (names scope.now) (state_of draft.old) (state_of draft.new)
        (atom (defined word.now) (raws_of arguments.now)) (formula_of a)) }
{
    if let Some(formula) = truth(word, arguments) {
        return Ok(formula);
    }
    draft.note(BadKind::Dollar);
    terms(alloc, draft, scope, arguments)?;
    Ok(Formula::Verum)
}

/// The atom of a predicate symbol of this name.
fn word_atom(
    alloc: Global,
    draft: &mut Draft,
    scope: &[&[u8]],
    name: &[u8],
    arguments: &Items<Raw<'_>>,
) -> Result<Formula, AllocError>
    requires name { IsSymbolName name.now }
    requires arguments { AreProperTerms (raws_of arguments.now) }
    ensures { IfOk result (λ a. Built (names scope.now) (state_of draft.old) (state_of draft.new)
        (atom (word name.now) (raws_of arguments.now)) (formula_of a)) }
{
    let arity = arity(arguments)?;
    let number = draft.symbols.intern_predicate(name, arity)?;
    let arguments = terms(alloc, draft, scope, arguments)?;
    Ok(Formula::Atom(number, arguments))
}

/// The atom of a symbol with its arguments.
pub fn atom(
    alloc: Global,
    draft: &mut Draft,
    scope: &[&[u8]],
    symbol: Symbol<'_>,
    arguments: &Items<Raw<'_>>,
) -> Result<Formula, AllocError>
    requires symbol { IsProperSymbol (symbol_of symbol) }
    requires arguments { AreProperTerms (raws_of arguments.now) }
    ensures { IfOk result (λ a. Built (names scope.now) (state_of draft.old) (state_of draft.new)
        (atom (symbol_of symbol.entry) (raws_of arguments.now)) (formula_of a)) }
{
    match symbol {
        Symbol::Lower(word) => word_atom(alloc, draft, scope, word, arguments),
        Symbol::Quoted(word) => {
            if has_backslash(word) {
                let name = unescaped(alloc, word)?;
                return word_atom(alloc, draft, scope, name.as_slice(), arguments);
            }
            word_atom(alloc, draft, scope, word, arguments)
        }
        Symbol::Dollar(word) => dollar_atom(alloc, draft, scope, word, arguments),
    }
}

/// An equation, which is a fault.
pub fn equation(
    alloc: Global,
    draft: &mut Draft,
    scope: &[&[u8]],
    left: &Raw<'_>,
    right: &Raw<'_>,
) -> Result<Formula, AllocError>
    requires left { IsProperTerm (raw_of left.now) }
    requires right { IsProperTerm (raw_of right.now) }
    ensures { IfOk result (λ a. (e : Equality) → Built (names scope.now) (state_of draft.old) (state_of draft.new)
        (equality e (raw_of left.now) (raw_of right.now)) (formula_of a)) }
{
    term(alloc, draft, scope, left)?;
    draft.note(BadKind::Equality);
    term(alloc, draft, scope, right)?;
    Ok(Formula::Verum)
}
