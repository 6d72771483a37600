//! The levels that stand above a formula at the end of a left spine.
ghost use Rattle.std.specs.Prelude.{◌≡◌, IfOk};
ghost use Rattle.fol_core.specs.Around.{in_wrap, around};

use crate::formula::Formula;
use containers::Shared;
use std::alloc::{AllocError, Global};

/// One level above a formula on its left spine: a connective with its right part, `~` or a quantifier.
#[derive(Drop)]
pub enum Wrap<A> {
    Not,
    And(Shared<Formula<A>>),
    Or(Shared<Formula<A>>),
    Imp(Shared<Formula<A>>),
    Iff(Shared<Formula<A>>),
    All,
    Ex,
}

fn wrapped<A: Drop>(
    alloc: Global,
    inner: Formula<A>,
    wrap: Wrap<A>,
) -> Result<Formula<A>, AllocError>
    ensures { IfOk result (λ f. f ≡ in_wrap wrap inner) }
{
    let inner = Shared::new(alloc, inner)?;
    match wrap {
        Wrap::Not => Ok(Formula::Not(inner)),
        Wrap::And(right) => Ok(Formula::And(inner, right)),
        Wrap::Or(right) => Ok(Formula::Or(inner, right)),
        Wrap::Imp(right) => Ok(Formula::Imp(inner, right)),
        Wrap::Iff(right) => Ok(Formula::Iff(inner, right)),
        Wrap::All => Ok(Formula::All(inner)),
        Wrap::Ex => Ok(Formula::Ex(inner)),
    }
}

/// The formula with `inner` at the end of its left spine and these levels above it, the outermost first.
#[tactic(auto, using(crate::proofs::Around::around_snoc))]
pub fn rebuilt<A: Drop>(
    alloc: Global,
    inner: Formula<A>,
    mut wraps: Vec<Wrap<A>>,
) -> Result<Formula<A>, AllocError>
    ensures { IfOk result (λ f. f ≡ around wraps.items inner) }
{
    let mut out = inner;
    while let Some(wrap) = wraps.pop() {
        out = wrapped(alloc, out, wrap)?;
    }
    Ok(out)
}
