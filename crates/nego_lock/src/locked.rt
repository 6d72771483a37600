//! A node behind its lock, and the flag that stops all visits.

ghost use Rattle.std.specs.Prelude.{◌≡◌, ◌+◌, ◌<◌, ◌↔◌, ◌⊎◌, Some, None, Ok, IsTrue, IsSome, IfSome};
ghost use Rattle.nego_node.specs.declared.moves.Move.TheVariants as moves;
ghost use Rattle.nego_lock.specs.Visits.{MessageBelongs, OutgoingBelongs, IfDid};
ghost use Rattle.nego_lock.specs.declared.visit.Visit.TheVariants as visits;

use crate::visit::{Message, Visit, VisitError, visit_state};
use nego_laws::field::{Field, Offer};
use nego_node::moves::Move;
use nego_node::node::NodeState;
use std::marker::{Model, PhantomData};
use std::sync::atomic::Ordering::SeqCst;
use std::sync::atomic::{AtomicIn, AtomicU64, Rule};
use std::sync::ledger::Ledger;
use std::sync::{Mutex, Wait};
use step_book::{Book, Share};

/// The rule of the stop flag: the word is 0 or 1.
pub struct IsFlag;

impl Rule for IsFlag {
    ghost invariant = { λ n. n < 2 };
}

/// A word that is 1 once the workers are to stop.
#[derive(Drop)]
pub struct StopFlag {
    word: AtomicIn<IsFlag>,
}

impl StopFlag {
    /// A flag that is not set. It takes no memory.
    pub fn new() -> StopFlag {
        StopFlag {
            word: AtomicIn::new(0),
        }
    }

    /// Whether it is set. It takes no memory.
    pub fn is_set(&self) -> bool {
        self.word.load(SeqCst) == 1
    }

    /// Sets it. It takes no memory.
    pub fn set(&self) {
        self.word.store(1, SeqCst);
    }
}

/// Which tree the nodes of one negotiation belong to: behind a lock nothing else is known of a node's tree. The program
/// picks it at the call that begins the negotiation.
pub trait Key<F: Field> {
    ghost use Rattle.std.specs.Prelude.{Option};
    ghost use Rattle.nego_laws.specs.Tree.{Tree};

    ghost tree: { Option (Tree F.Offer) };
}

/// The state of a node of the key's tree.
#[derive(Drop)]
pub(crate) struct Tied<F: Field, K: Key<F>> {
    state: NodeState<F>,
    of: PhantomData<K>,
}

impl<F: Field, K: Key<F>> Model for Tied<F, K> {
    ghost use Rattle.std.specs.Prelude.{◌≡◌, Some};
    ghost use Rattle.nego_node.specs.NodeValue.{NodeValue};

    ghost Value = { NodeValue F.Site F.Offer };

    ghost view = { λ x. x.state };

    ghost invariant = { λ x. K.tree ≡ Some (F.around x.state.site) };
}

/// Whether the move is to try an item.
fn is_try(step: Move) -> bool
    ensures { IsTrue result ↔ (step ≡ moves.Try) }
{
    matches!(step, Move::Try)
}

impl<F: Field, K: Key<F>> Tied<F, K> {
    /// Visits the state, and draws before where the node is to try an item.
    fn visit<N: Ledger, M: Ledger, R: Wait>(
        &mut self,
        rt: &R,
        field: &F,
        message: Option<Message<F>>,
        stopped: bool,
        book: &Book<N, M>,
        share: &mut Share<N>,
    ) -> Result<Visit<F>, VisitError>
        requires key { K.tree ≡ Some (F.tree field.now) }
        requires message { IfSome message (MessageBelongs F.Offer.tree (F.tree field.now)) }
        ensures belongs { IfDid result (OutgoingBelongs F.Offer.tree F.around (F.tree field.now)) }
        ensures share { (share.new ≡ share.old) ⊎ (share.new ≡ share.old + 1) }
        ensures brought { IsSome message → share.new ≡ share.old }
        ensures spent { result ≡ Ok visits.Spent → share.new ≡ share.old }
    {
        let drawn = if !stopped && message.is_none() && is_try(self.state.next_move(field, true)) {
            Some(book.draw(rt, share))
        } else {
            None
        };
        visit_state(&mut self.state, field, message, stopped, drawn)
    }
}

/// A node's state behind its lock, and how many came to the node since nobody stayed there.
#[derive(Drop)]
pub struct LockedNode<F: Field, K: Key<F>> {
    inner: Mutex<Tied<F, K>>,
    visitors: AtomicU64,
}

impl<F: Field, K: Key<F>> LockedNode<F, K> {
    /// Puts the state of a node of the key's tree behind a lock. It takes no memory.
    pub fn new(state: NodeState<F>) -> LockedNode<F, K>
        requires { K.tree ≡ Some (F.around state.site) }
    {
        LockedNode {
            inner: Mutex::new(Tied {
                state,
                of: PhantomData,
            }),
            visitors: AtomicU64::new(0),
        }
    }

    /// Counts one who came, and answers whether it is the one who stays: where another stays already, that one sees to
    /// what came. It takes no memory, and what it answers is not seen from outside.
    pub fn arrive(&self) -> bool {
        self.visitors.fetch_add(1, SeqCst) == 0
    }

    /// Lets the one who stays go, who has seen that many come. Where more came it stays, and the error is their number.
    /// It takes no memory, and what it answers is not seen from outside.
    pub fn leave(&self, seen: u64) -> Result<(), u64> {
        match self.visitors.compare_exchange(seen, 0, SeqCst, SeqCst) {
            Ok(_) => Ok(()),
            Err(more) => Err(more),
        }
    }

    /// The state, which is of the key's tree, once no thread shares the node any more. It takes no memory.
    pub fn take_history(self) -> NodeState<F>
        ensures { K.tree ≡ Some (F.around result.site) }
    {
        let LockedNode { inner, visitors: _ } = self;
        let Tied { state, of: _ } = inner.into_inner();
        state
    }

    /// Reads the flag, and does what `visit_state` does on the state under its lock, with a draw before an item is
    /// tried. A draw that was taken stays in the share. What is handed on belongs to the field's tree. What was done
    /// behind the lock is not seen from outside. It may wait for the lock.
    pub fn visit<N: Ledger, M: Ledger, R: Wait>(
        &self,
        rt: &R,
        field: &F,
        message: Option<Message<F>>,
        stop: &StopFlag,
        book: &Book<N, M>,
        share: &mut Share<N>,
    ) -> Result<Visit<F>, VisitError>
        requires key { K.tree ≡ Some (F.tree field.now) }
        requires message { IfSome message (MessageBelongs F.Offer.tree (F.tree field.now)) }
        ensures belongs { IfDid result (OutgoingBelongs F.Offer.tree F.around (F.tree field.now)) }
        ensures share { (share.new ≡ share.old) ⊎ (share.new ≡ share.old + 1) }
        ensures brought { IsSome message → share.new ≡ share.old }
        ensures spent { result ≡ Ok visits.Spent → share.new ≡ share.old }
    {
        let stopped = stop.is_set();
        let mut guard = self.inner.lock(rt);
        guard.visit(rt, field, message, stopped, book, share)
    }
}
