//! The lines of one step of a segment.

ghost use Rattle.std.specs.Prelude.{◌≡◌, ◌+◌, ◌<◌, ◌≤◌, ◌∷◌, [], None, length, slice_get, MatchOption, IfOk, IfErr};
ghost use Rattle.rewrite_expand.specs.Expansion as expansion;
ghost use Rattle.branch_rules.specs.Branch.{entries};
ghost use Rattle.branch_rules.specs.BranchValue.{branch_of};
ghost use Rattle.translation.specs.Translation.{run_of};
ghost use Rattle.deskolem.specs.Lines.{HasRoom};
ghost use Rattle.deskolem.specs.Walking.{IsStanding, IsStep, Moves, Refuses};
ghost use Rattle.deskolem.specs.Walking.{closing_for, closing_of, rewriting_at, steps_for};

use crate::answer::GsError;
use crate::growth::{is_positive_at, parts_at};
use crate::line::{Closing, Line, Rewriting};
use crate::standing::{Walk, place_in, put, stand, write};
use branch_rules::{Branch, TabKind, TabStep};
use containers::Shared;
use rewrite_rules::Rewritten;
use std::alloc::AllocError;

/// How many terms the rewriting fills in, and None exactly where it takes more steps than so many.
fn fills_within(rewritten: &Rewritten, left: u32) -> Option<u32>
    ensures { MatchOption result (left < length rewritten.now.fills + 2)
        (λ n. (n ≡ length rewritten.now.fills) × (n + 2 ≤ left)) }
{
    let fills = rewritten.fills.len();
    if left < 2 || fills > left as usize - 2 {
        return None;
    }
    Some(fills as u32)
}

/// The rewriting of a literal, by its place in the proof's list.
fn rewriting_line(
    walk: &Walk,
    literal: u32,
    positive: bool,
    rewritten: &Shared<Rewritten>,
) -> Result<Line, AllocError>
    ensures { IfOk result (λ line. line
        ≡ rewriting_at walk.now.places.items walk.now.len literal positive rewritten.now) }
{
    Ok(Line::Rewrite(Rewriting {
        len: walk.len,
        axiom: place_in(walk.places.as_slice(), rewritten.get().axiom),
        literal,
        positive,
        rewritten: rewritten.copy()?,
    }))
}

/// Where the head and the body of the rule's equivalence stand, whose sides are appended to a list of so many formulas.
fn sides(head_left: bool, len: u32) -> (u32, u32)
    requires { len ≤ 4294967294 }
    ensures head { result.0 ≡ expansion.head_place head_left len }
    ensures body { result.1 ≡ expansion.body_place head_left len }
{
    if head_left {
        (len, len + 1)
    } else {
        (len + 1, len)
    }
}

/// The lines of a rewriting of the literal at this place of the proof's list.
fn walk_rewriting(
    walk: &mut Walk,
    literal: u32,
    positive: bool,
    rewritten: &Shared<Rewritten>,
) -> Result<Option<Closing>, GsError>
    requires { IsStanding walk.old }
    ensures moves { IfOk result (λ found. Moves walk.old walk.new
        (rewriting_at walk.old.places.items walk.old.len literal positive rewritten.now)
        (length rewritten.now.fills + 2)
        (expansion.body_place rewritten.now.head_left (walk.old.len + length rewritten.now.fills) ∷ [])
        (walk.old.len + length rewritten.now.fills + 2)) }
    ensures closing { IfOk result (λ found. found ≡ closing_of walk.old.len literal positive rewritten.now) }
    ensures standing { IfOk result (λ _. IsStanding walk.new) }
    ensures refused { IfErr result (λ e. Refuses walk.old.left (length rewritten.now.fills + 2) e) }
{
    let Some(fills) = fills_within(rewritten.get(), walk.left) else {
        return Err(GsError::Bytes);
    };
    let line = rewriting_line(walk, literal, positive, rewritten)?;
    let len = walk.len + fills;
    match put(walk, line, fills + 2) {
        Ok(()) => {}
        Err(e) => return Err(e),
    }
    let (head, body) = sides(rewritten.get().head_left, len);
    stand(walk, body)?;
    walk.len = len + 2;
    if !positive {
        return Ok(None);
    }
    Ok(Some(Closing {
        atom: literal,
        negated: head,
    }))
}

/// Adds the line of one step, to which no closing belongs.
fn write_alone(walk: &mut Walk, line: Line, entries: u32) -> Result<Option<Closing>, GsError>
    requires standing { IsStanding walk.old }
    requires room { HasRoom line }
    requires few { entries ≤ 2 }
    ensures moves { IfOk result (λ found. Moves walk.old walk.new line 1
        (run_of walk.old.len entries) (walk.old.len + entries)) }
    ensures closing { IfOk result (λ found. found ≡ None) }
    ensures standing { IfOk result (λ _. IsStanding walk.new) }
    ensures refused { IfErr result (λ e. Refuses walk.old.left 1 e) }
{
    match write(walk, line, entries) {
        Ok(()) => Ok(None),
        Err(e) => Err(e),
    }
}

/// The lines of a step within a segment whose branch is this one at its end.
pub(crate) fn walk_step(
    walk: &mut Walk,
    branch: &Branch,
    step: &TabStep,
) -> Result<Option<Closing>, GsError>
    requires { IsStanding walk.old }
    ensures step { IfOk result (λ found.
        IsStep (slice_get (entries (branch_of branch.now)) step.now.place) step.now.place step.now.kind
        walk.old walk.new) }
    ensures closing { IfOk result (λ found. found
        ≡ closing_for (slice_get (entries (branch_of branch.now)) step.now.place) step.now.place step.now.kind
        walk.old.places.items walk.old.len) }
    ensures standing { IfOk result (λ _. IsStanding walk.new) }
    ensures refused { IfErr result (λ e. Refuses walk.old.left (steps_for step.now.kind) e) }
{
    let place = place_in(walk.places.as_slice(), step.place);
    match &step.kind {
        TabKind::Alpha => write_alone(walk, Line::Alpha { place }, parts_at(branch, step.place)),
        TabKind::Skolem(name) => write_alone(walk, Line::Delta { place, name: *name }, 1),
        TabKind::Instance(name) => write_alone(walk, Line::Gamma { place, name: *name }, 1),
        TabKind::Rewrite(rewritten) => {
            let positive = is_positive_at(branch, step.place);
            walk_rewriting(walk, place, positive, rewritten)
        }
    }
}
