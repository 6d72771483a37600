//! Rounds that several workers settle.

ghost use Rattle.std.specs.Prelude.{◌≡◌, ◌<◌, Some, None, IfOk};
ghost use Rattle.tab_tree.specs.declared.words.Engine.TheVariants as engines;
ghost use Rattle.deepening.specs.declared.order.Way.TheVariants as ways;
ghost use Rattle.deepening.specs.Rounds.{IsPoolRun};
ghost use Rattle.deepening.specs.RoundEnds.{AreLimits, EndsRound, SettlesPool, IsWorth};

use crate::alone::plainly;
use crate::endings::Ending;
use crate::kept::Kept;
use crate::limits::{Limits, POOL_TRIES};
use crate::settled::SettledRound;
use crate::translated::closed;
use containers::Shared;
use gs3_text::Tree;
use nego_lock::locked::Key;
use pool_run::gate::Gate;
use pool_run::outcome::{PoolEnd, PoolRun};
use pool_run::pool::negotiate;
use round_offers::TabOffer;
use std::alloc::{AllocError, Global};
use std::marker::{Brand, PhantomData};
use std::sync::Wait;
use std::thread::Threads;
use tab_field::TabField;
use tab_tree::{Engine, Round};

/// The round whose nodes stand behind the locks. The call that begins a negotiation picks it.
trait RoundKey {
    ghost use Rattle.std.specs.Prelude.{Option};
    ghost use Rattle.tab_tree.specs.RoundValue.{RoundValue};

    ghost round: { Option RoundValue };
}

impl RoundKey for Brand {
    ghost use Rattle.std.specs.Prelude.{None};

    ghost round = { None };
}

/// The key of that round's tree.
struct OfRound<K: RoundKey> {
    of: PhantomData<K>,
}

impl<K: RoundKey> Key<TabField> for OfRound<K> {
    ghost use Rattle.std.specs.Prelude.{option_map};
    ghost use Rattle.round_offers.specs.RoundOffer.{tree_of_round};

    ghost tree = { option_map tree_of_round K.round };
}

/// What a pool does on the round of the field.
fn pool_of<K: RoundKey + Send + Sync, G: Gate, R: Threads + Wait + Sync>(
    rt: &R,
    alloc: Global,
    field: &TabField,
    workers: u32,
    limit: u64,
    gate: &G,
) -> Result<PoolRun<TabField>, AllocError>
    requires some { 0 < workers }
    requires key { K.round ≡ Some field.now.round }
    ensures { IfOk result (λ run. IsPoolRun limit field.now.round run) }
{
    let depth = field.round.get().depth();
    negotiate::<TabField, OfRound<K>, G, R>(rt, alloc, field, depth, workers, limit, gate)
}

/// What the end of a pool is worth.
#[derive(Drop)]
enum Worth {
    /// The steps of a proof.
    Proof(Tree),
    /// No offer closes the round's tableau.
    Open,
    /// It serves for no verdict.
    Nothing,
}

/// What the end of a pool on the round is worth.
fn worth_of(
    alloc: Global,
    round: &Round,
    end: &PoolEnd<TabOffer>,
    limits: Limits,
) -> Result<Worth, AllocError>
    requires settles { SettlesPool round.now end.now }
    requires limits { AreLimits limits }
    ensures { IfOk result (λ worth. IsWorth limits round.now end.now worth) }
{
    let proposal = match end {
        PoolEnd::Closed(proposal) => proposal,
        PoolEnd::Open(_) => return Ok(Worth::Open),
        PoolEnd::Spent => return Ok(Worth::Nothing),
    };
    let offer = proposal.offer();
    match closed(alloc, round, offer.get(), limits.proof_bytes)? {
        Ending::Found(steps) => Ok(Worth::Proof(steps)),
        _ => Ok(Worth::Nothing),
    }
}

/// A round that a pool settled.
fn pooled_round(round: &Round, run: PoolRun<TabField>, ending: Option<Ending>) -> SettledRound
    ensures ending { result.ending ≡ ending }
    ensures kept { result.kept ≡ record {
      depth = round.now.depth;
      engine = Some engines.Agents;
      nodes = run.nodes;
      given_up = None;
    } }
{
    let (_, nodes, _) = run.into_parts();
    let kept = Kept {
        depth: round.depth(),
        engine: Some(Engine::Agents),
        nodes,
        given_up: None,
    };
    SettledRound { ending, kept }
}

/// Settles the round by so many workers. Where what they come to serves for no verdict, the calling thread settles it
/// anew by the plain order.
pub(crate) fn settle_together<G: Gate, R: Threads + Wait + Sync>(
    rt: &R,
    alloc: Global,
    round: &Shared<Round>,
    limits: Limits,
    workers: u32,
    gate: &G,
) -> Result<SettledRound, AllocError>
    requires some { 0 < workers }
    requires limits { AreLimits limits }
    ensures { IfOk result (λ s. EndsRound (ways.Agents workers) limits round.now s.kept s.ending) }
{
    let field = TabField {
        round: round.copy()?,
        alloc,
    };
    let most = limits.tries.unwrap_or(POOL_TRIES);
    let run = pool_of::<Brand, G, R>(rt, alloc, &field, workers, most, gate)?;
    match worth_of(alloc, round.get(), run.end(), limits)? {
        Worth::Proof(steps) => Ok(pooled_round(round.get(), run, Some(Ending::Found(steps)))),
        Worth::Open => Ok(pooled_round(round.get(), run, None)),
        Worth::Nothing => plainly(alloc, &field, limits, Some(run)),
    }
}
