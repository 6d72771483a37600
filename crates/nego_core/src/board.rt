//! Boards after picks, with what holds of them whatever the picks are.

ghost use Rattle.std.specs.Prelude.{◌≡◌, ◌<◌, ◌^◌, All, IfOk};
ghost use Rattle.std.specs.Option.{option_copied};
ghost use Rattle.std.specs.List.Sorted.{IsPermutation};
ghost use Rattle.nego_node.specs.BoardSound.{AreDistinct, IsBoard};
ghost use Rattle.nego_node.specs.Order.{AreRising};
ghost use Rattle.nego_node.specs.Board.{first_board};
ghost use Rattle.nego_core.specs.Bare.{bare};
ghost use Rattle.nego_core.specs.Facts.{HasHistory, TookAllowed, TurnedDownOnce, AnswersTruly};
ghost use Rattle.nego_core.specs.Verdict.{root_answer, IsDecided, IsNeverStuck};
ghost use Rattle.nego_core.specs.Links.{StandsAt};
ghost use Rattle.nego_core.specs.Picking.{Leads};
ghost use Rattle.nego_core.specs.Plays.{counted};

use crate::picks::Picks;
use crate::play::Play;
use containers::Items;
use nego_laws::field::{Field, Offer};
use nego_node::answers::Answer;
use nego_node::node::{NodeState, Nodes};
use std::alloc::{AllocError, Global};
use std::marker::Model;

/// The nodes of a board in the order of opening.
#[derive(Drop)]
pub struct BoardNodes<F: Field> {
    nodes: Vec<NodeState<F>>,
}

impl<F: Field> Model for BoardNodes<F> {
    ghost use Rattle.std.specs.Prelude.{List};
    ghost use Rattle.nego_node.specs.NodeValue.{NodeValue};

    ghost Value = { List (NodeValue F.Site F.Offer) };

    ghost view = { λ n. n.nodes.items };
}

/// A board after picks, and how many of them were not lawful.
#[derive(Drop)]
pub struct Board<F: Field> {
    nodes: BoardNodes<F>,
    unlawful: u64,
}

impl<F: Field> Model for Board<F> {
    ghost use Rattle.nego_core.specs.BoardValue.{BoardValue};

    ghost Value = { BoardValue F.Site F.Offer };

    ghost view = { λ b. record { nodes = b.nodes; unlawful = b.unlawful } };

    ghost use Rattle.nego_node.specs.BoardSound.{AreDistinct};
    ghost use Rattle.nego_core.specs.Bare.{bare};

    ghost invariant = { λ b. AreDistinct (bare b.nodes) };
}

impl<F: Field> BoardNodes<F> {
    /// The nodes in the order of opening.
    pub fn as_slice(&self) -> &[NodeState<F>]
        ensures { result.now ≡ self.now }
    {
        self.nodes.as_slice()
    }
}

impl<F: Field> Board<F> {
    /// The nodes in the order of opening.
    pub fn nodes(&self) -> &BoardNodes<F>
        ensures { result.now ≡ self.now.nodes }
    {
        &self.nodes
    }

    /// How many picks were not lawful.
    pub fn unlawful(&self) -> u64
        ensures { result ≡ self.now.unlawful }
    {
        self.unlawful
    }

    /// What the root answers, which is the node that was opened first.
    pub fn answer(&self) -> Option<&Answer<F::Offer>>
        ensures { option_copied result ≡ root_answer (bare self.now.nodes) }
    {
        match self.nodes.as_slice() {
            [] => None,
            [root, ..] => root.answer(),
        }
    }
}

impl<F: Field> BoardNodes<F> {
    /// The nodes in the order of their names.
    fn into_sorted(self) -> Result<Nodes<F>, AllocError>
        requires { AreDistinct (bare self) }
        ensures same { IfOk result (λ nodes. IsPermutation self nodes) }
        ensures rising { IfOk result (λ nodes. AreRising nodes) }
    {
        let BoardNodes { mut nodes } = self;
        nodes.sort_by_key(|node| node.node_name())?;
        Ok(Items::from_vec(nodes))
    }
}

impl<F: Field> Board<F> {
    /// The nodes in the order of their names.
    pub fn into_nodes(self) -> Result<Nodes<F>, AllocError>
        ensures same { IfOk result (λ nodes. IsPermutation self.nodes nodes) }
        ensures rising { IfOk result (λ nodes. AreRising nodes) }
    {
        self.nodes.into_sorted()
    }
}

/// The count of unlawful picks after a further one.
fn counted(did: bool, unlawful: u64) -> u64
    requires { unlawful < 2 ^ 63 }
    ensures { result ≡ counted did unlawful }
{
    if did { unlawful } else { unlawful + 1 }
}

/// Does the picks one after the other, from the root alone. A pick that is not lawful changes nothing and is counted.
/// Whatever the picks are: each node's history is a run of lawful events that gives its state; what a node adopts or
/// answers by agreement is allowed; a proposal is turned down once at the most; each answer is true; an answer of the
/// root is a proposal exactly where some offer solves the root; and while the root has a task and no answer, some pick
/// is lawful.
pub fn run_picks<F: Field>(
    alloc: Global,
    field: &F,
    round: u32,
    picks: &Picks,
) -> Result<Board<F>, AllocError>
    ensures run { IfOk result (λ board. Leads F.Offer.tree (F.tree field.now) round (first_board round) 0 picks.now
        (bare board.nodes) board.unlawful) }
    ensures board { IfOk result (λ board. IsBoard F.Offer.tree (F.tree field.now) round (bare board.nodes)) }
    ensures root { IfOk result (λ board. StandsAt (bare board.nodes) 0 1) }
    ensures sites { IfOk result (λ board. All (λ n. F.around n.site ≡ F.tree field.now) board.nodes) }
    ensures histories { IfOk result
        (λ board. All (HasHistory F.Offer.tree (F.tree field.now) round) (bare board.nodes)) }
    ensures allowed { IfOk result
        (λ board. All (TookAllowed F.Offer.tree (F.tree field.now) round) (bare board.nodes)) }
    ensures once { IfOk result
        (λ board. All (TurnedDownOnce F.Offer.tree (F.tree field.now) round) (bare board.nodes)) }
    ensures answers { IfOk result
        (λ board. All (AnswersTruly F.Offer.tree (F.tree field.now) round) (bare board.nodes)) }
    ensures decided { IfOk result (λ board. IsDecided F.Offer.tree (F.tree field.now) (bare board.nodes)) }
    ensures never_stuck { IfOk result (λ board. IsNeverStuck F.Offer.tree (F.tree field.now) round (bare board.nodes)) }
{
    let mut play = Play::begin(alloc, field, round)?;
    let mut unlawful: u64 = 0;
    for pick in picks.as_slice() {
        let did = play.turn(alloc, field, round, *pick)?;
        unlawful = counted(did, unlawful);
    }
    let nodes = play.into_nodes();
    Ok(Board {
        nodes: BoardNodes { nodes },
        unlawful,
    })
}
