//! The translation of a closed tree.

ghost use Rattle.std.specs.Prelude.{◌≡◌, ◌+◌, ◌*◌, ◌<◌, ◌≤◌, length, IfOk};
ghost use Rattle.std.specs.List.{AllByRecursion};
ghost use Rattle.fof_parse.specs.Problem.{Start};
ghost use Rattle.fof_parse.specs.ProblemView.{plain_problem};
ghost use Rattle.rewrite_rules.specs.RuleView.{rules_in};
ghost use Rattle.unify.specs.View.{offer_of};
ghost use Rattle.tab_tree.specs.ClosingView.{closed_tree_of};
ghost use Rattle.translation.specs.Laws.{IsClosedRound, translation};
ghost use Rattle.deskolem.specs.Answer.{Answers, AreBuilt, AreChecked};
ghost use Rattle.deskolem.specs.Lines.{HasRoom, rules_of_lines, symbols_of};
ghost use Rattle.deskolem.specs.View.{names_of};
ghost use Rattle.deskolem.specs.Walking.{ListsSteps};
ghost use Rattle.gs3_text.specs.declared.limit.TheConstants.{MAX_PROOF_BYTES};

use crate::answer::GsError;
use crate::build::{parameters_of, steps_of};
use crate::lengths::lengths_of;
use crate::line::{Line, Lines};
use crate::measuring::measure_lines;
use crate::parameters::Parameters;
use crate::standing::{Walk, append};
use crate::walk::walk_tree;
use containers::Items;
use fof_parse::Problem;
use gs3_rules::Steps;
use gs3_text::{Tree, tree_of};
use std::alloc::Global;
use tab_tree::{ClosedTree, Round};
use unify::Subst;

/// How many formulas the problem's start list has.
fn start_len(problem: &Problem) -> u32
    ensures value { result ≡ length (Start (plain_problem problem.now)) }
    ensures few { result ≤ 16777217 }
{
    let axioms = problem.axioms.len() as u32;
    if problem.conjecture.is_some() {
        axioms + 1
    } else {
        axioms
    }
}

/// How many steps there may be in a text within the limit: more of them take more bytes.
fn most_steps(limit: u64) -> u32
    requires { limit ≤ MAX_PROOF_BYTES }
    ensures enough { limit < 6 * result + 12 }
    ensures few { 6 * result ≤ limit }
{
    (limit.saturating_sub(6) / 6) as u32
}

/// The translation's lines; Bytes where there are more steps than so many.
fn lines_of(
    alloc: Global,
    problem: &Problem,
    tree: &ClosedTree,
    most: u32,
) -> Result<Lines, GsError>
    requires { 6 * most ≤ MAX_PROOF_BYTES }
    ensures lines { ListsSteps (plain_problem problem.now) (closed_tree_of tree.now) most result }
    ensures room { IfOk result (λ lines. AllByRecursion HasRoom lines) }
{
    let mut walk = Walk {
        places: Vec::new(alloc),
        len: 0,
        left: most,
        lines: Items::new(alloc),
    };
    append(&mut walk, start_len(problem))?;
    match walk_tree(alloc, &mut walk, tree) {
        Ok(()) => {}
        Err(e) => return Err(e),
    }
    let Walk { lines, .. } = walk;
    Ok(lines)
}

/// Whether the text of the lines is within the limit, and their terms nest no deeper than 4,096.
fn check_limits(
    alloc: Global,
    problem: &Problem,
    s: &Subst,
    names: &Parameters,
    lines: &[Line],
    limit: u64,
) -> Result<(), GsError>
    requires limit { limit ≤ MAX_PROOF_BYTES }
    requires room { AllByRecursion HasRoom lines.now }
    ensures { AreChecked (plain_problem problem.now).symbols.functions
        (rules_of_lines (offer_of s.now) (names_of names.now) lines.now) limit result }
{
    let lengths = lengths_of(alloc, &problem.symbols, names)?;
    let count = match measure_lines(alloc, s, &lengths, names, lines, limit) {
        Ok(count) => count,
        Err(e) => return Err(e),
    };
    if count.depth > 4096 {
        return Err(GsError::Nesting);
    }
    Ok(())
}

/// The steps of the lines, where they are within the limits.
fn build_lines(
    alloc: Global,
    problem: &Problem,
    s: &Subst,
    lines: &[Line],
    limit: u64,
) -> Result<Steps, GsError>
    requires limit { limit ≤ MAX_PROOF_BYTES }
    requires room { AllByRecursion HasRoom lines.now }
    ensures { AreBuilt (plain_problem problem.now).symbols.functions
        (rules_of_lines (offer_of s.now) (symbols_of lines.now) lines.now) limit result }
{
    let names = parameters_of(alloc, lines)?;
    match check_limits(alloc, problem, s, &names, lines, limit) {
        Ok(()) => {}
        Err(e) => return Err(e),
    }
    let steps = steps_of(alloc, s, &names, lines)?;
    Ok(steps)
}

/// The proof that the offer's closed tree is translated to. Bytes comes exactly where its text is longer than the
/// limit, and Nesting exactly where it is not and a term nests more than 4,096 deep. No term is built before both are
/// known.
pub fn to_gs3(
    alloc: Global,
    round: &Round,
    tree: &ClosedTree,
    s: &Subst,
    limit: u64,
) -> Result<Tree, GsError>
    requires closed { IsClosedRound (plain_problem round.now.problem) (rules_in round.now.rules) round.now.depth
        (offer_of s.now) (closed_tree_of tree.now) }
    requires limit { limit ≤ MAX_PROOF_BYTES }
    ensures { Answers (plain_problem round.now.problem) limit
        (translation (plain_problem round.now.problem) (rules_in round.now.rules) (offer_of s.now)
        (closed_tree_of tree.now)) result }
{
    let problem = round.problem().get();
    let lines = match lines_of(alloc, problem, tree, most_steps(limit)) {
        Ok(lines) => lines,
        Err(e) => return Err(e),
    };
    match build_lines(alloc, problem, s, lines.as_slice(), limit) {
        Ok(steps) => Ok(tree_of(steps)),
        Err(e) => Err(e),
    }
}
