//! Rounds that one thread settles.

ghost use Rattle.std.specs.Prelude.{◌≡◌, ◌≢◌, Some, false, IfOk, MatchOption};
ghost use Rattle.tab_tree.specs.declared.words.Engine.TheVariants as engines;
ghost use Rattle.nego_plain.specs.Settling.{Says};
ghost use Rattle.deepening.specs.declared.order.Way.{Way};
ghost use Rattle.deepening.specs.declared.order.Way.TheVariants as ways;
ghost use Rattle.deepening.specs.Rounds.{IsPlainRound, IsBoardRound, IsUndecided, IsLeftToPlain, IsSettledSo};
ghost use Rattle.deepening.specs.RoundEnds.{AreLimits, EndsRound, EndsVerdict, Settles};

use crate::endings::Ending;
use crate::kept::Kept;
use crate::limits::Limits;
use crate::order::Order;
use crate::settled::SettledRound;
use crate::translated::closed;
use containers::Shared;
use nego_core::board::run_picks;
use nego_core::schedule::scheduled_picks;
use nego_node::answers::Answer;
use nego_node::node::Nodes;
use nego_plain::settling::{Settled, Verdict, settle};
use nego_plain::tries::Tries;
use pool_run::outcome::PoolRun;
use round_offers::TabOffer;
use std::alloc::{AllocError, Global};
use tab_field::TabField;
use tab_tree::{Engine, Round};

/// How a round of that verdict ends the search.
fn ending_of(
    alloc: Global,
    round: &Round,
    verdict: &Verdict<TabOffer>,
    limits: Limits,
) -> Result<Option<Ending>, AllocError>
    requires settles { Settles round.now verdict.now }
    requires limits { AreLimits limits }
    ensures { IfOk result (λ ending. EndsVerdict round.now limits verdict.now ending) }
{
    match verdict {
        Verdict::Closed(proposal) => {
            let offer = proposal.offer();
            let ending = closed(alloc, round, offer.get(), limits.proof_bytes)?;
            Ok(Some(ending))
        }
        Verdict::Open(_) => Ok(None),
        Verdict::Spent => Ok(Some(Ending::Spent(limits.tries.unwrap_or(0)))),
    }
}

/// The round with its verdict, by an engine of one thread.
fn settled_round(
    alloc: Global,
    round: &Round,
    limits: Limits,
    engine: Engine,
    settled: Settled<TabField>,
    given_up: Option<PoolRun<TabField>>,
) -> Result<SettledRound, AllocError>
    requires settles { Settles round.now settled.verdict }
    requires limits { AreLimits limits }
    requires of_one { engine ≢ engines.Agents }
    ensures { IfOk result (λ s. (way : Way) → IsSettledSo way limits round.now
        (record { depth = round.now.depth; engine = Some engine; nodes = settled.nodes; given_up = given_up })
        settled.verdict → EndsRound way limits round.now s.kept s.ending) }
{
    let Settled { verdict, nodes } = settled;
    let ending = ending_of(alloc, round, &verdict, limits)?;
    let kept = Kept {
        depth: round.depth(),
        engine: Some(engine),
        nodes,
        given_up,
    };
    Ok(SettledRound { ending, kept })
}

/// The verdict of the root's answer.
fn verdict_of(answer: &Answer<TabOffer>) -> Result<Verdict<TabOffer>, AllocError>
    ensures { IfOk result (λ verdict. Says false (Some answer.now) verdict) }
{
    match answer {
        Answer::Proposal(proposal) => Ok(Verdict::Closed(proposal.copy()?)),
        Answer::Exhausted(exhausted) => Ok(Verdict::Open(exhausted.copy()?)),
    }
}

/// The round after the scheduled picks, if its root has an answer then.
fn by_board(
    alloc: Global,
    field: &TabField,
    seed: u64,
    turns: u32,
) -> Result<Option<Settled<TabField>>, AllocError>
    ensures { IfOk result (λ settled. MatchOption settled (IsUndecided seed turns field.now.round)
        (λ s. IsBoardRound seed turns field.now.round s.nodes s.verdict)) }
{
    let picks = scheduled_picks(alloc, seed, turns)?;
    let depth = field.round.get().depth();
    let board = run_picks(alloc, field, depth, &picks)?;
    let verdict = match board.answer() {
        None => return Ok(None),
        Some(answer) => verdict_of(answer)?,
    };
    let nodes = board.into_nodes()?;
    Ok(Some(Settled { verdict, nodes }))
}

/// The round by the plain order, with the attempts of one round.
fn plain_round(
    alloc: Global,
    field: &TabField,
    tries: Option<u64>,
) -> Result<Settled<TabField>, AllocError>
    ensures { IfOk result (λ settled. IsPlainRound tries field.now.round settled.nodes settled.verdict) }
{
    let mut tries = Tries {
        limit: tries,
        made: 0,
    };
    settle(alloc, field, field.round.get().depth(), &mut tries)
}

/// Settles the round by the plain order, where what came before has left it.
pub(crate) fn plainly(
    alloc: Global,
    field: &TabField,
    limits: Limits,
    given_up: Option<PoolRun<TabField>>,
) -> Result<SettledRound, AllocError>
    requires { AreLimits limits }
    ensures { IfOk result (λ s. (way : Way) → IsLeftToPlain way limits field.now.round given_up
        → EndsRound way limits field.now.round s.kept s.ending) }
{
    let settled = plain_round(alloc, field, limits.tries)?;
    settled_round(
        alloc,
        field.round.get(),
        limits,
        Engine::Plain,
        settled,
        given_up,
    )
}

/// Settles the round on one thread, in that order.
pub(crate) fn settle_alone(
    alloc: Global,
    round: &Shared<Round>,
    limits: Limits,
    order: Order,
) -> Result<SettledRound, AllocError>
    requires { AreLimits limits }
    ensures { IfOk result (λ s. EndsRound (ways.Alone order) limits round.now s.kept s.ending) }
{
    let field = TabField {
        round: round.copy()?,
        alloc,
    };
    match order {
        Order::Plain => plainly(alloc, &field, limits, None),
        Order::Scheduled { seed, turns } => match by_board(alloc, &field, seed, turns)? {
            None => plainly(alloc, &field, limits, None),
            Some(settled) => settled_round(
                alloc,
                field.round.get(),
                limits,
                Engine::Board,
                settled,
                None,
            ),
        },
    }
}
