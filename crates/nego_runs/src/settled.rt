//! Rounds that are settled in the plain order.

use crate::scene::{AGREES, FORBIDS, Plan, RESUMES, field};
use crate::telling::tell_nodes;
use nego_laws::sets::{SetField, SetOffer};
use nego_plain::settling::{Settled, Verdict, settle};
use nego_plain::tries::Tries;
use std::alloc::{AllocError, Global};
use std::io;

/// A verdict: what it is, and its set.
fn verdict_words(verdict: &Verdict<SetOffer>) -> (&'static str, u64) {
    match verdict {
        Verdict::Closed(proposal) => ("closed", proposal.offer().get().set),
        Verdict::Open(_) => ("open", 0),
        Verdict::Spent => ("spent", 0),
    }
}

/// The round over a tree, with the number of its attempts.
fn run(
    alloc: Global,
    plans: &[Plan],
    limit: Option<u64>,
) -> Result<(Settled<SetField>, u64), AllocError> {
    let field = field(alloc, plans)?;
    let mut tries = Tries { limit, made: 0 };
    let settled = settle(alloc, &field, 1, &mut tries)?;
    Ok((settled, tries.made))
}

/// A round over a tree, with a limit on attempts if there is one.
fn tell_round(rt: &HostRuntime, plans: &[Plan], limit: Option<u64>) -> io::Result<()> {
    let (settled, made) = run(rt.alloc(), plans, limit)?;
    let (word, set) = verdict_words(&settled.verdict);
    println!(rt; "{word} {set:b}, attempts {made}")?;
    tell_nodes(rt, settled.nodes.as_slice())
}

/// Rounds that end closed, open, and by the limit, and one that resumes work that was done.
pub(crate) fn tell_all(rt: &HostRuntime) -> io::Result<()> {
    tell_round(rt, &AGREES, None)?;
    tell_round(rt, &FORBIDS, None)?;
    tell_round(rt, &FORBIDS, Some(1))?;
    tell_round(rt, &RESUMES, None)
}
