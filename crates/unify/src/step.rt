//! A step of unification: what the next pair of terms comes to.

ghost use Rattle.std.specs.Prelude.{◌≡◌, ◌++◌, ◌∷◌, [], ◌↔◌, IfOk};
ghost use Rattle.free_terms.specs.Free as free;
ghost use Rattle.free_terms.specs.View.{name_of, term_of};
ghost use Rattle.unify.specs.Offers as offers;
ghost use Rattle.unify.specs.Offers.{IsOffer};
ghost use Rattle.unify.specs.View.{offer_of};
ghost use Rattle.unify.specs.Memo.{Advances, Remembers, RemembersWith, StillRemembers, names};
ghost use Rattle.unify.specs.Work.{pair_of, pairs_of, AgainstMeans, StepMeans, NoneIfAgreed, IsUnboundHead};

use crate::bindings::{Binding, Bindings};
use crate::follow::{head, is_metavar, occurs};
use crate::memo::{Memo, Met, settle};
use crate::work::{Pair, Pairs, Step, split};
use free_terms::{FTerm, Name};
use std::alloc::{AllocError, Global};

/// What an unbound metavariable comes to against a head.
fn against(alloc: Global, s: &Bindings, x: Name, t: &FTerm) -> Result<Step, AllocError>
    requires offer { IsOffer (offer_of s.now) }
    requires head { IsUnboundHead (offer_of s.now) (term_of t.now) }
    ensures { IfOk result (λ step. AgainstMeans (offer_of s.now) (name_of x) (term_of t.now) step) }
{
    if is_metavar(t, x) {
        return Ok(Step::Agreed);
    }
    if occurs(alloc, s, x, t)? {
        return Ok(Step::Clash);
    }
    let term = t.copy()?;
    Ok(Step::Bind(Binding { name: x, term }))
}

/// What the pair comes to: it is bound, or what its arguments come to is added to `work`.
fn compared(alloc: Global, s: &Bindings, pair: &Pair, work: &mut Pairs) -> Result<Step, AllocError>
    requires { IsOffer (offer_of s.now) }
    ensures { IfOk result (Advances s.now work.old.items (pair_of pair.now) work.new.items) }
{
    let left = head(s, &pair.left);
    let right = head(s, &pair.right);
    if let FTerm::Meta(x) = left {
        return against(alloc, s, *x, right);
    }
    if let FTerm::Meta(x) = right {
        return against(alloc, s, *x, left);
    }
    split(work, left, right)
}

/// The same of two metavariables. Where both are bound, and were met before, they come to nothing.
fn compared_names(
    alloc: Global,
    s: &Bindings,
    x: Name,
    y: Name,
    work: &mut Pairs,
    memo: &mut Memo,
) -> Result<Step, AllocError>
    requires offer { IsOffer (offer_of s.now) }
    requires memo { RemembersWith s.now work.old.items (names x y) memo.old }
    ensures step { IfOk result (Advances s.now work.old.items (names x y) work.new.items) }
    ensures memo { IfOk result (λ _. RemembersWith s.now work.old.items (names x y) memo.new) }
{
    let pair = Pair {
        left: FTerm::Meta(x),
        right: FTerm::Meta(y),
    };
    if s.value(x).is_none() || s.value(y).is_none() {
        return compared(alloc, s, &pair, work);
    }
    settle(memo, work.len())?;
    if memo.done.contains(&(x, y)) {
        return Ok(Step::Agreed);
    }
    let below = work.len();
    memo.waiting.push(Met {
        left: x,
        right: y,
        below,
    })?;
    compared(alloc, s, &pair, work)
}

/// The same of a pair that is then let go. One metavariable against itself comes to nothing, and what it
/// is bound to is not gone through.
fn settled(
    alloc: Global,
    s: &Bindings,
    pair: Pair,
    work: &mut Pairs,
    memo: &mut Memo,
) -> Result<Step, AllocError>
    requires offer { IsOffer (offer_of s.now) }
    requires memo { RemembersWith s.now work.old.items (pair_of pair) memo.old }
    ensures step { IfOk result (Advances s.now work.old.items (pair_of pair) work.new.items) }
    ensures memo { IfOk result (λ _. RemembersWith s.now work.old.items (pair_of pair) memo.new) }
{
    if let FTerm::Meta(x) = &pair.left {
        if is_metavar(&pair.right, *x) {
            return Ok(Step::Agreed);
        }
        if let FTerm::Meta(y) = &pair.right {
            return compared_names(alloc, s, *x, *y, work, memo);
        }
    }
    compared(alloc, s, &pair, work)
}

/// Goes on until the pairs are done, clash, or come to a binding.
pub(crate) fn step(
    alloc: Global,
    s: &Bindings,
    work: &mut Pairs,
    memo: &mut Memo,
) -> Result<Step, AllocError>
    requires offer { IsOffer (offer_of s.now) }
    requires memo { Remembers (offer_of s.now) (pairs_of work.old.items) memo.old }
    ensures means { IfOk result (StepMeans (offer_of s.now) (pairs_of work.old.items) (pairs_of work.new.items)) }
    ensures done { IfOk result (NoneIfAgreed (pairs_of work.new.items)) }
    ensures memo { IfOk result (StillRemembers (offer_of s.now) (pairs_of work.new.items) memo.new) }
{
    while let Some(pair) = work.pop() {
        match settled(alloc, s, pair, work, memo)? {
            Step::Agreed => {}
            Step::Clash => return Ok(Step::Clash),
            Step::Bind(binding) => return Ok(Step::Bind(binding)),
        }
    }
    Ok(Step::Agreed)
}
