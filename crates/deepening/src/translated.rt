//! The proof of a round that ended with an offer.

ghost use Rattle.std.specs.Prelude.{◌≡◌, ◌≤◌, IfOk};
ghost use Rattle.fof_parse.specs.ProblemView.{plain_problem};
ghost use Rattle.rewrite_rules.specs.RuleView.{rules_in};
ghost use Rattle.unify.specs.View.{offer_of};
ghost use Rattle.tab_tree.specs.ClosingView.{closed_tree_of};
ghost use Rattle.translation.specs.Laws.{IsClosedRound, translation};
ghost use Rattle.round_offers.specs.RoundTableau.{ClosesRound};
ghost use Rattle.deepening.specs.RoundEnds.{EndsWith, EndsClosed};
ghost use Rattle.gs3_text.specs.declared.limit.TheConstants.{MAX_PROOF_BYTES};

use crate::endings::Ending;
use closing_tree::closed_tree;
use deskolem::{GsError, to_gs3};
use round_offers::TabOffer;
use std::alloc::{AllocError, Global};
use tab_tree::{ClosedTree, Round};
use unify::Subst;

/// The proof that the closed tree is translated to, or over which limit it is.
fn proof_of(
    alloc: Global,
    round: &Round,
    tree: &ClosedTree,
    s: &Subst,
    limit: u64,
) -> Result<Ending, AllocError>
    requires closed { IsClosedRound (plain_problem round.now.problem) (rules_in round.now.rules) round.now.depth
        (offer_of s.now) (closed_tree_of tree.now) }
    requires limit { limit ≤ MAX_PROOF_BYTES }
    ensures { IfOk result (λ ending. EndsWith (plain_problem round.now.problem) limit
        (translation (plain_problem round.now.problem) (rules_in round.now.rules) (offer_of s.now)
        (closed_tree_of tree.now)) ending) }
{
    match to_gs3(alloc, round, tree, s, limit) {
        Ok(tree) => Ok(Ending::Found(tree)),
        Err(GsError::Bytes) => Ok(Ending::Long),
        Err(GsError::Nesting) => Ok(Ending::Deep),
        Err(GsError::OutOfMemory) => Err(AllocError),
    }
}

/// The ending of a round with an offer that closes its tableau.
pub(crate) fn closed(
    alloc: Global,
    round: &Round,
    offer: &TabOffer,
    limit: u64,
) -> Result<Ending, AllocError>
    requires of_round { offer.now.round ≡ round.now }
    requires closes { ClosesRound round.now (offer_of offer.now.bindings) }
    requires limit { limit ≤ MAX_PROOF_BYTES }
    ensures { IfOk result (λ ending. EndsClosed round.now offer.now limit ending) }
{
    // The reader tells that these are the rules of the round's problem.
    let _ = round.rules();
    match closed_tree(alloc, round, offer.bindings())? {
        None => unreachable!(),
        Some(tree) => proof_of(alloc, round, tree.get(), offer.bindings(), limit),
    }
}
