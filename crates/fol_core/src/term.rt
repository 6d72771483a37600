//! Terms, and what is asked of them.
ghost use Rattle.std.specs.Prelude.{◌≡◌, ◌↔◌, ◌<◌, ◌++◌, ◌∷◌, [], unwrap_or, IsTrue, IfOk};
ghost use Rattle.fol_core.specs.Syntax.{open_term, open_terms, free_in_term, free_in_terms, IsClosedTerm};
ghost use Rattle.fol_core.specs.Syntax.{param_in_term, param_in_terms, param_bound_in_term, param_bound_in_terms};
ghost use Rattle.fol_core.specs.View.{term_of, terms_of};

use containers::{Items, Share, Shared, with_next};
use std::alloc::{AllocError, Global};

/// A term of first-order logic.
#[derive(Drop)]
pub enum Term {
    /// A bound variable: the number of quantifiers between it and its own, so that 0 is the innermost one's.
    Bound(u32),
    /// A parameter, which stands for one object and is written `#n`.
    Param(u64),
    /// A function symbol's number and its arguments.
    App(u32, Terms),
}

/// A list of terms, shared by all copies of it.
pub type Terms = Shared<Items<Term>>;

impl Term {
    /// An equal term, in constant time: the arguments are shared.
    pub fn copy(&self) -> Result<Term, AllocError>
        ensures { IfOk result (λ t. t ≡ self.now) }
    {
        match self {
            Term::Bound(n) => Ok(Term::Bound(*n)),
            Term::Param(n) => Ok(Term::Param(*n)),
            Term::App(f, args) => Ok(Term::App(*f, args.copy()?)),
        }
    }
}

impl Share for Term {
    fn share(&self) -> Result<Term, AllocError>
        ensures { IfOk result (λ other. other ≡ self.now) }
    {
        self.copy()
    }
}

/// `term` with the closed term `by` in place of the variable `level`. None says that it is the term itself.
#[cycle(open)]
pub(crate) fn opened(
    alloc: Global,
    term: &Term,
    level: u32,
    by: &Term,
) -> Result<Option<Term>, AllocError>
    ensures { IfOk result (λ t. term_of (unwrap_or t term.now)
        ≡ open_term level (term_of by.now) (term_of term.now)) }
{
    match term {
        Term::Bound(n) if *n == level => Ok(Some(by.copy()?)),
        Term::Bound(_) => Ok(None),
        Term::Param(_) => Ok(None),
        Term::App(f, args) => match all_opened(alloc, args, level, by)? {
            Some(args) => Ok(Some(Term::App(*f, args))),
            None => Ok(None),
        },
    }
}

/// The same of a list. None says that each term of it is unchanged.
#[cycle(open)]
pub(crate) fn all_opened(
    alloc: Global,
    terms: &Terms,
    level: u32,
    by: &Term,
) -> Result<Option<Terms>, AllocError>
    ensures { IfOk result (λ ts. terms_of (unwrap_or ts terms.now)
        ≡ open_terms level (term_of by.now) (terms_of terms.now)) }
{
    let terms = terms.get().as_slice();
    let mut out = None;
    for i in 0..terms.len() {
        let term = opened(alloc, &terms[i], level, by)?;
        out = with_next(alloc, out, &terms[..i], &terms[i], term)?;
    }
    match out {
        Some(out) => Ok(Some(Shared::new(alloc, out)?)),
        None => Ok(None),
    }
}

/// How many quantifiers have to stand around the term, so that each variable in it is bound.
#[cycle(free)]
pub(crate) fn free_in(term: &Term) -> u64
    ensures { result ≡ free_in_term (term_of term.now) }
{
    match term {
        Term::Bound(n) => *n as u64 + 1,
        Term::Param(_) => 0,
        Term::App(_, args) => free_in_all(args),
    }
}

#[cycle(free)]
pub(crate) fn free_in_all(terms: &Terms) -> u64
    ensures { result ≡ free_in_terms (terms_of terms.now) }
{
    let mut most = 0;
    for term in terms.get().as_slice() {
        most = most.max(free_in(term));
    }
    most
}

#[cycle(param)]
pub(crate) fn has_param(term: &Term, param: u64) -> bool
    ensures { result ≡ param_in_term param (term_of term.now) }
{
    match term {
        Term::Bound(_) => false,
        Term::Param(n) => *n == param,
        Term::App(_, args) => any_has_param(args, param),
    }
}

#[cycle(param)]
pub(crate) fn any_has_param(terms: &Terms, param: u64) -> bool
    ensures { result ≡ param_in_terms param (terms_of terms.now) }
{
    for term in terms.get().as_slice() {
        if has_param(term, param) {
            return true;
        }
    }
    false
}

/// The least number above every parameter in the term. It takes no memory.
#[cycle(bound)]
pub fn param_bound_in_term(term: &Term) -> u128
    ensures { result ≡ param_bound_in_term (term_of term.now) }
{
    match term {
        Term::Bound(_) => 0,
        Term::Param(n) => *n as u128 + 1,
        Term::App(_, args) => param_bound_in_all(args),
    }
}

#[cycle(bound)]
pub(crate) fn param_bound_in_all(terms: &Terms) -> u128
    ensures { result ≡ param_bound_in_terms (terms_of terms.now) }
{
    let mut most = 0;
    for term in terms.get().as_slice() {
        most = most.max(param_bound_in_term(term));
    }
    most
}

#[cycle(same)]
pub(crate) fn same_term(a: &Term, b: &Term) -> bool
    ensures { IsTrue result ↔ (a.now ≡ b.now) }
{
    match (a, b) {
        (Term::Bound(m), Term::Bound(n)) => *m == *n,
        (Term::Param(m), Term::Param(n)) => *m == *n,
        (Term::App(f, us), Term::App(g, vs)) => *f == *g && same_terms(us, vs),
        _ => false,
    }
}

/// Whether the two lists are equal. It takes no memory.
#[cycle(same)]
pub fn same_terms(a: &Terms, b: &Terms) -> bool
    ensures { IsTrue result ↔ (a.now ≡ b.now) }
{
    let a = a.get();
    let b = b.get();
    if a.len() != b.len() {
        return false;
    }
    for (u, v) in a.as_slice().iter().zip(b.as_slice()) {
        if !same_term(u, v) {
            return false;
        }
    }
    true
}

/// Whether no bound variable stands in the term. It takes no memory.
pub fn is_closed_term(term: &Term) -> bool
    ensures { IsTrue result ↔ IsClosedTerm (term_of term.now) }
{
    free_in(term) == 0
}
