//! The pairs of terms that unification has still to make one.

ghost use Rattle.std.specs.Prelude.{◌≡◌, length, IfOk};
ghost use Rattle.unify.specs.Work.{AddsPairs, PushTells, SplitTells};

use crate::bindings::Binding;
use free_terms::{FTerm, FTerms};
use smallvec::SmallVec;
use std::alloc::AllocError;

/// Two terms that are to be made one.
#[derive(Drop)]
pub(crate) struct Pair {
    pub(crate) left: FTerm,
    pub(crate) right: FTerm,
}

/// What fills a place of the work stack that is not in use.
impl Default for Pair {
    fn default() -> Pair {
        Pair {
            left: FTerm::Bound(0),
            right: FTerm::Bound(0),
        }
    }
}

/// The pairs that are left, the next one last.
pub(crate) type Pairs = SmallVec<Pair, 4>;

/// What a pair comes to: nothing more than pairs, no offer at all, or a binding.
#[derive(Drop)]
pub(crate) enum Step {
    Agreed,
    Clash,
    Bind(Binding),
}

/// Adds the terms of two lists of one length, place by place.
pub(crate) fn push_pairs(work: &mut Pairs, us: &FTerms, vs: &FTerms) -> Result<(), AllocError>
    requires { length us.now ≡ length vs.now }
    ensures { IfOk result (λ _. AddsPairs us.now vs.now work.old.items work.new.items) }
{
    let us = us.get().as_slice();
    let vs = vs.get().as_slice();
    for i in 0..us.len() {
        let left = us[i].copy()?;
        let right = vs[i].copy()?;
        work.push(Pair { left, right })?;
    }
    Ok(())
}

/// Adds the arguments of two terms of one symbol, which agree in number where any offer makes them one.
fn push_arguments(work: &mut Pairs, us: &FTerms, vs: &FTerms) -> Result<Step, AllocError>
    ensures { IfOk result (PushTells us.now vs.now work.old.items work.new.items) }
{
    if us.get().len() != vs.get().len() {
        return Ok(Step::Clash);
    }
    push_pairs(work, us, vs)?;
    Ok(Step::Agreed)
}

/// Adds what two terms come to, neither of which is a metavariable.
pub(crate) fn split(work: &mut Pairs, a: &FTerm, b: &FTerm) -> Result<Step, AllocError>
    ensures { IfOk result (SplitTells a.now b.now work.old.items work.new.items) }
{
    match a {
        FTerm::Bound(i) => match b {
            FTerm::Bound(j) if *i == *j => Ok(Step::Agreed),
            FTerm::Bound(_) | FTerm::Meta(_) | FTerm::Skolem(..) | FTerm::App(..) => {
                Ok(Step::Clash)
            }
        },
        FTerm::Meta(_) => Ok(Step::Clash),
        FTerm::Skolem(x, us) => match b {
            FTerm::Skolem(y, vs) if *x == *y => push_arguments(work, us, vs),
            FTerm::Bound(_) | FTerm::Meta(_) | FTerm::Skolem(..) | FTerm::App(..) => {
                Ok(Step::Clash)
            }
        },
        FTerm::App(f, us) => match b {
            FTerm::App(g, vs) if *f == *g => push_arguments(work, us, vs),
            FTerm::Bound(_) | FTerm::Meta(_) | FTerm::Skolem(..) | FTerm::App(..) => {
                Ok(Step::Clash)
            }
        },
    }
}
