//! Most general offers.

ghost use Rattle.std.specs.Prelude.{◌≡◌, length, IfOk};
ghost use Rattle.unify.specs.View.{UnifiesTerms};

use crate::memo::Memo;
use crate::step::step;
use crate::subst::{Subst, copy};
use crate::work::{Step, push_pairs};
use free_terms::FTerms;
use smallvec::SmallVec;
use std::alloc::{AllocError, Global};

/// A most general offer that goes on from the given one and makes the two lists one, and None exactly
/// where no offer that entails the given one makes them one.
///
/// A failing attempt that meets no new binding copies nothing of the given offer. New bindings share their
/// terms with the lists and the given offer. Bound terms that nest deeper together than `MOST_NESTED` are want
/// of memory.
pub fn unify(
    alloc: Global,
    given: &Subst,
    a: &FTerms,
    b: &FTerms,
) -> Result<Option<Subst>, AllocError>
    requires { length a.now ≡ length b.now }
    ensures { IfOk result (UnifiesTerms given.now a.now b.now) }
{
    let mut work = SmallVec::new(alloc);
    push_pairs(&mut work, a, b)?;
    let mut memo = Memo::new(alloc);
    let mut s = match step(alloc, given.bindings(), &mut work, &mut memo)? {
        Step::Agreed => {
            let same = copy(alloc, given)?;
            return Ok(Some(same));
        }
        Step::Clash => return Ok(None),
        Step::Bind(binding) => {
            let copied = given.bindings().copy(alloc)?;
            copied.with(binding)?
        }
    };
    loop {
        match step(alloc, &s, &mut work, &mut memo)? {
            Step::Agreed => return Ok(Some(Subst::of(s))),
            Step::Clash => return Ok(None),
            Step::Bind(binding) => s = s.with(binding)?,
        }
    }
}
