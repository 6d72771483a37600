//! The rounds of a search.

ghost use Rattle.std.specs.Prelude.{◌≡◌, ◌<◌, IfOk};
ghost use Rattle.fof_parse.specs.ProblemView.{plain_problem};
ghost use Rattle.rewrite_rules.specs.RuleView.{rules_in};
ghost use Rattle.tab_tree.specs.RoundValue.{HasRulesOfProblem};
ghost use Rattle.deepening.specs.Endings.{EndsSo};
ghost use Rattle.deepening.specs.RoundEnds.{AreLimits, IsEndOf};
ghost use Rattle.deepening.specs.Ways.{HasWorkers};
ghost use Rattle.deepening.specs.declared.order.Way.TheVariants as ways;

use crate::agents::settle_together;
use crate::alone::settle_alone;
use crate::endings::Ending;
use crate::kept::Kept;
use crate::limits::Limits;
use crate::order::{Order, Way};
use crate::settled::SettledRound;
use containers::Shared;
use fof_parse::Problem;
use open_walk::report_open;
use pool_run::gate::Gate;
use rewrite_rules::Rules;
use std::alloc::{AllocError, Global};
use std::sync::Wait;
use std::thread::Threads;
use tab_tree::Round;

/// How a search ended, and its last round.
#[derive(Drop)]
pub struct Searched {
    pub ending: Ending,
    pub kept: Kept,
}

/// The round of that depth.
fn round_at(
    alloc: Global,
    problem: &Shared<Problem>,
    rules: &Shared<Rules>,
    depth: u32,
) -> Result<Shared<Round>, AllocError>
    requires { HasRulesOfProblem (record { problem = problem.now; rules = rules.now; depth = depth }) }
    ensures { IfOk result (λ round. round ≡ record { problem = problem.now; rules = rules.now; depth = depth }) }
{
    Shared::new(alloc, Round::new(problem.copy()?, rules.copy()?, depth))
}

/// The end of a search with its last round.
fn ended(alloc: Global, round: &Round, last: SettledRound) -> Result<Searched, AllocError>
    ensures { IfOk result (λ s. IsEndOf round.now last s) }
{
    let SettledRound { ending, kept } = last;
    let ending = match ending {
        Some(ending) => ending,
        None => Ending::Exhausted(report_open(alloc, round)?),
    };
    Ok(Searched { ending, kept })
}

/// Searches the tableaux of depth 1, 2, .. up to the limit for the first one that some offer closes, and translates its
/// closed tree. Each round is settled on the calling thread, in that order. The only error is want of memory.
pub fn search_alone(
    alloc: Global,
    problem: &Shared<Problem>,
    rules: &Shared<Rules>,
    limits: Limits,
    order: Order,
) -> Result<Searched, AllocError>
    requires rules { HasRulesOfProblem (record { problem = problem.now; rules = rules.now; depth = 0 }) }
    requires limits { AreLimits limits }
    ensures { IfOk result
        (λ s. EndsSo (plain_problem problem.now) (rules_in rules.now) limits (ways.Alone order) s.kept s.ending) }
{
    for depth in 1..limits.depth {
        let round = round_at(alloc, problem, rules, depth)?;
        let settled = settle_alone(alloc, &round, limits, order)?;
        if settled.ending.is_some() {
            return ended(alloc, round.get(), settled);
        }
    }
    let round = round_at(alloc, problem, rules, limits.depth)?;
    let last = settle_alone(alloc, &round, limits, order)?;
    ended(alloc, round.get(), last)
}

/// The same search, where so many workers settle each round.
fn search_together<G: Gate, R: Threads + Wait + Sync>(
    rt: &R,
    alloc: Global,
    problem: &Shared<Problem>,
    rules: &Shared<Rules>,
    limits: Limits,
    workers: u32,
    gate: &G,
) -> Result<Searched, AllocError>
    requires rules { HasRulesOfProblem (record { problem = problem.now; rules = rules.now; depth = 0 }) }
    requires limits { AreLimits limits }
    requires some { 0 < workers }
    ensures { IfOk result
        (λ s. EndsSo (plain_problem problem.now) (rules_in rules.now) limits (ways.Agents workers) s.kept s.ending) }
{
    for depth in 1..limits.depth {
        let round = round_at(alloc, problem, rules, depth)?;
        let settled = settle_together(rt, alloc, &round, limits, workers, gate)?;
        if settled.ending.is_some() {
            return ended(alloc, round.get(), settled);
        }
    }
    let round = round_at(alloc, problem, rules, limits.depth)?;
    let last = settle_together(rt, alloc, &round, limits, workers, gate)?;
    ended(alloc, round.get(), last)
}

/// The search in any way. The gate is called before each visit that a worker makes. Workers may wait for one another.
pub fn search<G: Gate, R: Threads + Wait + Sync>(
    rt: &R,
    alloc: Global,
    problem: &Shared<Problem>,
    rules: &Shared<Rules>,
    limits: Limits,
    way: Way,
    gate: &G,
) -> Result<Searched, AllocError>
    requires rules { HasRulesOfProblem (record { problem = problem.now; rules = rules.now; depth = 0 }) }
    requires limits { AreLimits limits }
    requires workers { HasWorkers way }
    ensures { IfOk result
        (λ s. EndsSo (plain_problem problem.now) (rules_in rules.now) limits way s.kept s.ending) }
{
    match way {
        Way::Alone(order) => search_alone(alloc, problem, rules, limits, order),
        Way::Agents(workers) => search_together(rt, alloc, problem, rules, limits, workers, gate),
    }
}
