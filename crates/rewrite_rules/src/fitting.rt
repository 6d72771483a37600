//! Whether the variables of one side of an equivalence stand in the other.

ghost use Rattle.std.specs.Prelude.{◌≡◌, ◌||◌, ◌<◌, ℕ, false, eqb, get_or, length, IfOk, OnOk};
ghost use Rattle.fol_core.specs.View.{term_of, terms_of, formula_of};
ghost use Rattle.free_terms.specs.Matching.{variable_in_term, variable_in_terms};
ghost use Rattle.rewrite_rules.specs.Fitting.{AreVariables, term_uses, terms_use, uses_only};

use containers::Items;
use fol_core::{Formula, Term, Terms};
use std::alloc::{AllocError, Global};

/// Marks the variable. The list is as long as the greatest number that was marked asks for.
fn mark(marks: &mut Items<bool>, n: u32) -> Result<(), AllocError>
    ensures { OnOk result ((k : ℕ) → get_or marks.new k false ≡ (eqb n k || get_or marks.old k false)) }
{
    let place = n as usize;
    widen(marks, place)?;
    marks.set(place, true);
    Ok(())
}

/// Adds places that are not marked until the list has the place.
fn widen(marks: &mut Items<bool>, place: usize) -> Result<(), AllocError>
    ensures same { OnOk result ((k : ℕ) → get_or marks.new k false ≡ get_or marks.old k false) }
    ensures within { OnOk result (place < length marks.new) }
{
    while marks.len() <= place {
        marks.push(false)?;
    }
    Ok(())
}

/// Marks the variables of the term.
#[cycle(marking)]
fn mark_term(marks: &mut Items<bool>, term: &Term) -> Result<(), AllocError>
    ensures { OnOk result ((k : ℕ) →
        get_or marks.new k false ≡ (variable_in_term k (term_of term.now) || get_or marks.old k false)) }
{
    match term {
        Term::Bound(n) => mark(marks, *n),
        Term::Param(_) => Ok(()),
        Term::App(_, args) => mark_terms(marks, args),
    }
}

/// Marks the variables of the terms.
#[cycle(marking)]
fn mark_terms(marks: &mut Items<bool>, terms: &Terms) -> Result<(), AllocError>
    ensures { OnOk result ((k : ℕ) →
        get_or marks.new k false ≡ (variable_in_terms k (terms_of terms.now) || get_or marks.old k false)) }
{
    for term in terms.get().as_slice() {
        mark_term(marks, term)?;
    }
    Ok(())
}

/// The variables of the terms, marked by their numbers.
pub(crate) fn variables_of(alloc: Global, terms: &Terms) -> Result<Items<bool>, AllocError>
    ensures { IfOk result (λ marks. AreVariables marks (terms_of terms.now)) }
{
    let mut marks = Items::new(alloc);
    mark_terms(&mut marks, terms)?;
    Ok(marks)
}

fn is_marked(marks: &[bool], n: u32) -> bool
    ensures { result ≡ get_or marks.now n false }
{
    match marks.get(n as usize) {
        Some(mark) => *mark,
        None => false,
    }
}

/// Whether each variable that lies more than `depth` quantifiers further out is marked.
#[cycle(using)]
fn term_uses(term: &Term, depth: u32, marks: &[bool]) -> bool
    ensures { result ≡ term_uses depth marks.now (term_of term.now) }
{
    match term {
        Term::Bound(k) => *k < depth || is_marked(marks, *k - depth),
        Term::Param(_) => true,
        Term::App(_, us) => terms_use(us, depth, marks),
    }
}

#[cycle(using)]
fn terms_use(terms: &Terms, depth: u32, marks: &[bool]) -> bool
    ensures { result ≡ terms_use depth marks.now (terms_of terms.now) }
{
    for term in terms.get().as_slice() {
        if !term_uses(term, depth, marks) {
            return false;
        }
    }
    true
}

/// The same of a formula. It goes down the left part in a loop, and into the right part by a call.
pub(crate) fn uses_only(f: &Formula, depth: u32, marks: &[bool]) -> Result<bool, AllocError>
    ensures { IfOk result (λ r. r ≡ uses_only depth marks.now (formula_of f.now)) }
{
    let mut at = f;
    let mut depth = depth;
    loop {
        match at {
            Formula::Atom(_, us) => return Ok(terms_use(us, depth, marks)),
            Formula::Verum | Formula::Falsum => return Ok(true),
            Formula::Not(a) => at = a.get(),
            Formula::And(a, b) | Formula::Or(a, b) | Formula::Imp(a, b) | Formula::Iff(a, b) => {
                if !uses_only(b.get(), depth, marks)? {
                    return Ok(false);
                }
                at = a.get();
            }
            Formula::All(a) | Formula::Ex(a) => {
                depth = depth.checked_add(1).ok_or(AllocError)?;
                at = a.get();
            }
        }
    }
}
