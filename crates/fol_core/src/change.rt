//! A change of the arguments of a formula's atoms, which shares with the formula what is unchanged.
ghost use Rattle.std.specs.Prelude.{◌≡◌, ℕ, suc, take, unwrap_or, IfOk, IsFalse};
ghost use Rattle.fol_core.specs.Around.{around};
ghost use Rattle.fol_core.specs.Syntax.{map_atoms};
ghost use Rattle.fol_core.specs.View.{formula_by};

use crate::formula::Formula;
use crate::spine::{Wrap, rebuilt};
use containers::{Share, Shared};
use std::alloc::{AllocError, Global};

/// A change of the arguments of atoms, which may look at the number of quantifiers around.
pub trait Change<A> {
    /// What the arguments of an atom stand for.
    ghost Plain: { Type 0 };

    ghost plain: { A → Plain };

    /// What they are changed to, under a number of quantifiers.
    ghost image: { Self → ℕ → Plain → Plain };

    /// The arguments changed, under `level` quantifiers. None says that they are unchanged.
    fn changed(&self, alloc: Global, args: &A, level: u32) -> Result<Option<A>, AllocError>
        ensures { IfOk result (λ new. plain (unwrap_or new args.now) ≡ image self.now level (plain args.now)) };
}

/// `f` under `level` quantifiers with the arguments of its atoms changed. None says that it is `f` itself.
///
/// What the first `kept` levels stand around is `base`, and unchanged as far as it was seen.
#[cycle(change)]
pub fn changed<A: Share + Drop, C: Change<A>>(
    alloc: Global,
    f: &Formula<A>,
    level: u32,
    change: &C,
) -> Result<Option<Formula<A>>, AllocError>
    ensures { IfOk result (λ g. formula_by C.Change.plain (unwrap_or g f.now)
        ≡ map_atoms (C.Change.image change.now) level (formula_by C.Change.plain f.now)) }
{
    let mut wraps = Vec::new(alloc);
    let mut at = f;
    let mut level = level;
    let mut base = f;
    let mut kept = 0;
    loop {
        let (wrap, is_changed, inner) = match at {
            Formula::Atom(p, args) => {
                return match change.changed(alloc, args, level)? {
                    Some(args) => {
                        let whole = rebuilt(alloc, Formula::Atom(*p, args), wraps)?;
                        Ok(Some(whole))
                    }
                    None => unchanged_below(alloc, f, base, wraps, kept),
                };
            }
            Formula::Verum => return unchanged_below(alloc, f, base, wraps, kept),
            Formula::Falsum => return unchanged_below(alloc, f, base, wraps, kept),
            Formula::Not(a) => (Wrap::Not, false, a),
            Formula::And(a, b) => {
                let (right, is_changed) = changed_part(alloc, b, level, change)?;
                (Wrap::And(right), is_changed, a)
            }
            Formula::Or(a, b) => {
                let (right, is_changed) = changed_part(alloc, b, level, change)?;
                (Wrap::Or(right), is_changed, a)
            }
            Formula::Imp(a, b) => {
                let (right, is_changed) = changed_part(alloc, b, level, change)?;
                (Wrap::Imp(right), is_changed, a)
            }
            Formula::Iff(a, b) => {
                let (right, is_changed) = changed_part(alloc, b, level, change)?;
                (Wrap::Iff(right), is_changed, a)
            }
            Formula::All(a) => {
                level = inner(level)?;
                (Wrap::All, false, a)
            }
            Formula::Ex(a) => {
                level = inner(level)?;
                (Wrap::Ex, false, a)
            }
        };
        wraps.push(wrap)?;
        at = inner.get();
        if is_changed {
            base = at;
            kept = wraps.len();
        }
    }
}

/// The same of a part, and whether it may be another.
#[cycle(change)]
fn changed_part<A: Share + Drop, C: Change<A>>(
    alloc: Global,
    part: &Shared<Formula<A>>,
    level: u32,
    change: &C,
) -> Result<(Shared<Formula<A>>, bool), AllocError>
    ensures value { IfOk result (λ r. formula_by C.Change.plain r.0
        ≡ map_atoms (C.Change.image change.now) level (formula_by C.Change.plain part.now)) }
    ensures unchanged { IfOk result (λ r. IsFalse r.1 → r.0 ≡ part.now) }
{
    match changed(alloc, part.get(), level, change)? {
        Some(new) => Ok((Shared::new(alloc, new)?, true)),
        None => Ok((part.copy()?, false)),
    }
}

/// What stands around `base`: the first `kept` levels. None says that it is `f` itself.
fn unchanged_below<A: Share + Drop>(
    alloc: Global,
    f: &Formula<A>,
    base: &Formula<A>,
    mut wraps: Vec<Wrap<A>>,
    kept: usize,
) -> Result<Option<Formula<A>>, AllocError>
    requires { kept ≡ 0 → base.now ≡ f.now }
    ensures { IfOk result (λ g. unwrap_or g f.now ≡ around (take kept wraps.items) base.now) }
{
    if kept == 0 {
        return Ok(None);
    }
    wraps.truncate(kept);
    let whole = rebuilt(alloc, base.copy()?, wraps)?;
    Ok(Some(whole))
}

/// The level inside one more quantifier. No formula that fits in memory has 2 ^ 32 of them.
fn inner(level: u32) -> Result<u32, AllocError>
    ensures { IfOk result (λ n. n ≡ suc level) }
{
    level.checked_add(1).ok_or(AllocError)
}
