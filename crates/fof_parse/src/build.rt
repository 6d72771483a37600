//! Terms with their symbols' numbers, from terms as they are written.

ghost use Rattle.std.specs.Prelude.{◌≡◌, Some, IfOk};
ghost use Rattle.fol_core.specs.View.{term_of, terms_of};
ghost use Rattle.fof_parse.specs.Token.{unescaped};
ghost use Rattle.fof_parse.specs.Problem.{binder, count};
ghost use Rattle.fof_parse.specs.Refusal.{or_else};
ghost use Rattle.fof_parse.specs.Reader.Views.{symbol_of, raw_of, raws_of};
ghost use Rattle.fof_parse.specs.Reader.Parsing.{IsProperSymbol, IsProperTerm, AreProperTerms};
ghost use Rattle.fof_parse.specs.Reader.Building.{has_backslash, names, state_of, Numbers, IsVariable, IsFunctionHead};
ghost use Rattle.fof_parse.specs.Reader.Building.{TermBuilt, TermsBuilt};

use crate::refusal::BadKind;
use crate::term::{Raw, Symbol};
use containers::{Items, Shared};
use fol_core::{Symbols, Term, Terms};
use std::alloc::{AllocError, Global};

/// What was read of a problem so far, beside its formulas.
#[derive(Drop)]
pub struct Draft {
    pub symbols: Symbols,
    /// The first element that is not supported.
    pub fault: Option<BadKind>,
    /// Whether each variable stands in the scope of a quantifier that names it.
    pub is_closed: bool,
}

impl Draft {
    /// Notes a fault, unless an earlier one is there.
    pub fn note(&mut self, kind: BadKind)
        ensures fault { self.new.fault ≡ or_else self.old.fault (Some kind) }
        ensures symbols { self.new.symbols ≡ self.old.symbols }
        ensures closed { self.new.is_closed ≡ self.old.is_closed }
    {
        if self.fault.is_none() {
            self.fault = Some(kind);
        }
    }
}

/// Whether a backslash stands in the text.
pub fn has_backslash(text: &[u8]) -> bool
    ensures { result ≡ has_backslash text.now }
{
    for c in text {
        if *c == b'\\' {
            return true;
        }
    }
    false
}

/// What a text with escapes says.
pub fn unescaped(alloc: Global, text: &[u8]) -> Result<Vec<u8>, AllocError>
    ensures { IfOk result (λ v. v.items ≡ unescaped text.now) }
{
    let mut out = Vec::new(alloc);
    let mut escape = false;
    for c in text {
        if *c == b'\\' && !escape {
            escape = true;
        } else {
            out.push(*c)?;
            escape = false;
        }
    }
    Ok(out)
}

/// The number of a function symbol, and None for a word with `$`.
fn function(
    alloc: Global,
    symbols: &mut Symbols,
    symbol: Symbol<'_>,
    arity: u32,
) -> Result<Option<u32>, AllocError>
    requires { IsProperSymbol (symbol_of symbol) }
    ensures number { IfOk result (λ n. Numbers (symbol_of symbol.entry) arity symbols.old.functions
        symbols.new.functions n) }
    ensures predicates { symbols.new.predicates ≡ symbols.old.predicates }
{
    match symbol {
        Symbol::Lower(word) => Ok(Some(symbols.intern_function(word, arity)?)),
        Symbol::Quoted(word) => {
            if has_backslash(word) {
                let name = unescaped(alloc, word)?;
                return Ok(Some(symbols.intern_function(name.as_slice(), arity)?));
            }
            Ok(Some(symbols.intern_function(word, arity)?))
        }
        Symbol::Dollar(_) => Ok(None),
    }
}

/// How many quantifiers stand between the variable and its own, and None where no quantifier in scope names it. The
/// innermost is looked at first.
fn binder(scope: &[&[u8]], word: &[u8]) -> Option<usize>
    ensures { result ≡ binder (names scope.now) word.now }
{
    for i in (0..scope.len()).rev() {
        if scope[i] == word {
            return Some(scope.len() - 1 - i);
        }
    }
    None
}

/// The variable of a name, where `scope` has the variables in scope, the outermost quantifier's first.
fn variable(draft: &mut Draft, scope: &[&[u8]], word: &[u8]) -> Result<Term, AllocError>
    ensures symbols { draft.new.symbols ≡ draft.old.symbols }
    ensures fault { draft.new.fault ≡ draft.old.fault }
    ensures term { IfOk result (λ t. IsVariable (binder (names scope.now) word.now) draft.old.is_closed
        draft.new.is_closed (term_of t)) }
{
    let Some(count) = binder(scope, word) else {
        draft.is_closed = false;
        return Ok(Term::Bound(0));
    };
    match u32::try_from(count) {
        Ok(count) => Ok(Term::Bound(count)),
        Err(_) => Err(AllocError),
    }
}

/// The number of a function symbol in front of so many arguments.
fn function_head(
    alloc: Global,
    draft: &mut Draft,
    symbol: Symbol<'_>,
    arity: u32,
) -> Result<u32, AllocError>
    requires { IsProperSymbol (symbol_of symbol) }
    ensures { IfOk result (λ n. IsFunctionHead (symbol_of symbol.entry) arity (state_of draft.old)
        (state_of draft.new) n) }
{
    match function(alloc, &mut draft.symbols, symbol, arity)? {
        Some(number) => Ok(number),
        None => {
            draft.note(BadKind::Dollar);
            Ok(0)
        }
    }
}

/// How many terms there are.
pub fn arity(terms: &Items<Raw<'_>>) -> Result<u32, AllocError>
    ensures { IfOk result (λ n. n ≡ count (raws_of terms.now)) }
{
    match u32::try_from(terms.len()) {
        Ok(count) => Ok(count),
        Err(_) => Err(AllocError),
    }
}

/// The term with its symbols' numbers.
#[cycle(build)]
pub fn term(
    alloc: Global,
    draft: &mut Draft,
    scope: &[&[u8]],
    raw: &Raw<'_>,
) -> Result<Term, AllocError>
    requires { IsProperTerm (raw_of raw.now) }
    ensures { IfOk result (λ t. TermBuilt (names scope.now) (state_of draft.old) (state_of draft.new) (raw_of raw.now)
        (term_of t)) }
{
    match raw {
        Raw::Variable(word) => variable(draft, scope, word),
        Raw::Number(_) => {
            draft.note(BadKind::Number);
            Ok(Term::Bound(0))
        }
        Raw::Distinct(_) => {
            draft.note(BadKind::Distinct);
            Ok(Term::Bound(0))
        }
        Raw::Applied(symbol, arguments) => {
            let arity = arity(arguments)?;
            let number = function_head(alloc, draft, *symbol, arity)?;
            let arguments = terms(alloc, draft, scope, arguments)?;
            Ok(Term::App(number, arguments))
        }
    }
}

/// The terms with their symbols' numbers.
#[cycle(build)]
pub fn terms(
    alloc: Global,
    draft: &mut Draft,
    scope: &[&[u8]],
    raws: &Items<Raw<'_>>,
) -> Result<Terms, AllocError>
    requires { AreProperTerms (raws_of raws.now) }
    ensures { IfOk result (λ ts. TermsBuilt (names scope.now) (state_of draft.old) (state_of draft.new)
        (raws_of raws.now) (terms_of ts)) }
{
    let mut out = Items::from_vec(Vec::with_capacity(alloc, raws.len())?);
    for raw in raws.as_slice() {
        let term = term(alloc, draft, scope, raw)?;
        out.push(term)?;
    }
    Shared::new(alloc, out)
}
