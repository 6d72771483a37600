//! Formulas over atoms with arguments of any type, and what is asked of those over terms.
ghost use Rattle.std.specs.Prelude.{◌≡◌, ◌↔◌, IsTrue, IfOk};
ghost use Rattle.fol_core.specs.Syntax.{free_in, IsClosed, param_in, param_bound};
ghost use Rattle.fol_core.specs.View.{formula_of};

use crate::term;
use crate::term::Terms;
use containers::{Items, Share, Shared};
use std::alloc::AllocError;

/// A formula of first-order logic without equality, over atoms whose arguments are of type `A`: lists of terms, if
/// nothing else is said. A copy shares the parts with what it copies.
///
/// A formula may be deep to the left without a limit. Its functions go down the left part, `~` and quantifiers in a
/// loop, and into the right part by a call.
pub enum Formula<A = Terms> {
    /// A predicate symbol's number and its arguments.
    Atom(u32, A),
    /// `$true`.
    Verum,
    /// `$false`.
    Falsum,
    Not(Shared<Formula<A>>),
    And(Shared<Formula<A>>, Shared<Formula<A>>),
    Or(Shared<Formula<A>>, Shared<Formula<A>>),
    Imp(Shared<Formula<A>>, Shared<Formula<A>>),
    Iff(Shared<Formula<A>>, Shared<Formula<A>>),
    /// `!`: the variable 0 of the body is its own.
    All(Shared<Formula<A>>),
    /// `?`
    Ex(Shared<Formula<A>>),
}

/// A list of formulas.
pub type Formulas = Items<Formula>;

/// A chain nests to the left without a limit, so the left parts are let go in a loop and the right ones by calls. A
/// part that has other owners is left to them.
impl<A: Drop> Drop for Formula<A> {
    fn drop(mut self) {
        loop {
            match self {
                Formula::Atom(_, _) | Formula::Verum | Formula::Falsum => return,
                Formula::Not(a) | Formula::All(a) | Formula::Ex(a) => match a.into_inner() {
                    Some(a) => self = a,
                    None => return,
                },
                Formula::And(a, b) | Formula::Or(a, b) | Formula::Imp(a, b) | Formula::Iff(a, b) =>
                    {
                        drop(b);
                        match a.into_inner() {
                            Some(a) => self = a,
                            None => return,
                        }
                    }
            }
        }
    }
}

impl<A: Share + Drop> Formula<A> {
    /// An equal formula, in constant time: its parts are shared.
    pub fn copy(&self) -> Result<Formula<A>, AllocError>
        ensures { IfOk result (λ f. f ≡ self.now) }
    {
        match self {
            Formula::Atom(p, args) => Ok(Formula::Atom(*p, args.share()?)),
            Formula::Verum => Ok(Formula::Verum),
            Formula::Falsum => Ok(Formula::Falsum),
            Formula::Not(a) => Ok(Formula::Not(a.copy()?)),
            Formula::And(a, b) => Ok(Formula::And(a.copy()?, b.copy()?)),
            Formula::Or(a, b) => Ok(Formula::Or(a.copy()?, b.copy()?)),
            Formula::Imp(a, b) => Ok(Formula::Imp(a.copy()?, b.copy()?)),
            Formula::Iff(a, b) => Ok(Formula::Iff(a.copy()?, b.copy()?)),
            Formula::All(a) => Ok(Formula::All(a.copy()?)),
            Formula::Ex(a) => Ok(Formula::Ex(a.copy()?)),
        }
    }
}

/// Whether the two are equal. It takes no memory.
pub fn same(a: &Formula, b: &Formula) -> bool
    ensures { IsTrue result ↔ (a.now ≡ b.now) }
{
    let mut a = a;
    let mut b = b;
    loop {
        match (a, b) {
            (Formula::Atom(p, us), Formula::Atom(q, vs)) => {
                return *p == *q && term::same_terms(us, vs);
            }
            (Formula::Verum, Formula::Verum) | (Formula::Falsum, Formula::Falsum) => return true,
            (Formula::Not(x), Formula::Not(y))
            | (Formula::All(x), Formula::All(y))
            | (Formula::Ex(x), Formula::Ex(y)) => {
                a = x.get();
                b = y.get();
            }
            (Formula::And(x, y), Formula::And(z, w))
            | (Formula::Or(x, y), Formula::Or(z, w))
            | (Formula::Imp(x, y), Formula::Imp(z, w))
            | (Formula::Iff(x, y), Formula::Iff(z, w)) => {
                if !same(y.get(), w.get()) {
                    return false;
                }
                a = x.get();
                b = z.get();
            }
            _ => return false,
        }
    }
}

/// How many quantifiers have to stand around the formula, so that each variable in it is bound.
#[tactic(auto, using(crate::proofs::Depth::remaining))]
fn free_in(f: &Formula) -> u64
    ensures { result ≡ free_in (formula_of f.now) }
{
    let mut at = f;
    let mut depth = 0u64;
    let mut most = 0u64;
    loop {
        match at {
            Formula::Atom(_, args) => {
                return most.max(term::free_in_all(args).saturating_sub(depth));
            }
            Formula::Verum | Formula::Falsum => return most,
            Formula::Not(a) => at = a.get(),
            Formula::And(a, b) | Formula::Or(a, b) | Formula::Imp(a, b) | Formula::Iff(a, b) => {
                most = most.max(free_in(b.get()).saturating_sub(depth));
                at = a.get();
            }
            Formula::All(a) | Formula::Ex(a) => {
                depth = depth.saturating_add(1);
                at = a.get();
            }
        }
    }
}

/// Whether each variable of the formula is bound in it. It takes no memory.
pub fn is_closed(f: &Formula) -> bool
    ensures { IsTrue result ↔ IsClosed (formula_of f.now) }
{
    free_in(f) == 0
}

/// Whether the parameter stands in the formula. It takes no memory.
pub fn occurs_param(f: &Formula, param: u64) -> bool
    ensures { result ≡ param_in param (formula_of f.now) }
{
    let mut at = f;
    loop {
        match at {
            Formula::Atom(_, args) => return term::any_has_param(args, param),
            Formula::Verum | Formula::Falsum => return false,
            Formula::Not(a) | Formula::All(a) | Formula::Ex(a) => at = a.get(),
            Formula::And(a, b) | Formula::Or(a, b) | Formula::Imp(a, b) | Formula::Iff(a, b) => {
                if occurs_param(b.get(), param) {
                    return true;
                }
                at = a.get();
            }
        }
    }
}

/// The least number above every parameter in the formula. It takes no memory.
pub fn param_bound(f: &Formula) -> u128
    ensures { result ≡ param_bound (formula_of f.now) }
{
    let mut at = f;
    let mut most = 0u128;
    loop {
        match at {
            Formula::Atom(_, args) => return most.max(term::param_bound_in_all(args)),
            Formula::Verum | Formula::Falsum => return most,
            Formula::Not(a) | Formula::All(a) | Formula::Ex(a) => at = a.get(),
            Formula::And(a, b) | Formula::Or(a, b) | Formula::Imp(a, b) | Formula::Iff(a, b) => {
                most = most.max(param_bound(b.get()));
                at = a.get();
            }
        }
    }
}
