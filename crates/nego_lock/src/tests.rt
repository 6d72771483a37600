//! A root behind its lock takes its task and tries its item, and a directory hands its node back.

ghost use Rattle.std.specs.Prelude.{◌≡◌, Some, IfOk};
ghost use Rattle.nego_laws.specs.Sets.{set_tree};
ghost use Rattle.nego_node.specs.Sound.{Belongs};

use crate::directory::Directory;
use crate::locked::{Key, LockedNode, StopFlag};
use crate::visit::{Message, Outgoing, Visit, VisitError};
use containers::{Items, Shared};
use nego_laws::field::{Field, Offer};
use nego_laws::sets::{SetField, SetOffer, SetSite, SetTree};
use nego_node::node::NodeState;
use nego_node::tasks::{Offers, Task};
use std::alloc::{AllocError, Global};
use std::marker::{Brand, PhantomData};
use std::process::Abort;
use std::sync::Wait;
use std::sync::ledger::{Blank, Ledger};
use std::test::Fail;
use step_book::Book;

/// The tree of sets that a test is about, which the test picks. A brand can be picked only for a trait without
/// parameters.
trait SetKey {
    ghost use Rattle.std.specs.Prelude.{Option};
    ghost use Rattle.nego_laws.specs.declared.sets.SetTree.{SetTree};

    ghost sets: { Option SetTree };
}

impl SetKey for Brand {
    ghost use Rattle.std.specs.Prelude.{None};

    ghost sets = { None };
}

/// The key of those sets.
struct SetsOf<K: SetKey> {
    of: PhantomData<K>,
}

impl<K: SetKey> Key<SetField> for SetsOf<K> {
    ghost use Rattle.std.specs.Prelude.{option_map};
    ghost use Rattle.nego_laws.specs.Sets.{set_tree};

    ghost tree = { option_map set_tree K.sets };
}

/// What came of a visit.
#[derive(Clone, Copy, PartialEq, Eq, Debug)]
enum Came {
    Nothing,
    Answer,
    Other,
}

fn outcome(visit: Result<Visit<SetField>, VisitError>) -> Came {
    match visit {
        Ok(Visit::Did(Outgoing::Nothing)) => Came::Nothing,
        Ok(Visit::Did(Outgoing::Answer(_))) => Came::Answer,
        _ => Came::Other,
    }
}

/// A tree of one site with one item.
fn leaf(alloc: Global) -> Result<SetField, AllocError> {
    let mut sites = Items::new(alloc);
    sites.push(SetSite {
        parted: false,
        needs: Items::from_slice(alloc, &[2])?,
    })?;
    let tree = Shared::new(alloc, SetTree { sites })?;
    Ok(SetField { tree })
}

/// The first task of the root.
fn first_task(alloc: Global, field: &SetField) -> Result<Shared<Task<SetOffer>>, AllocError>
    ensures { IfOk result (λ task. Belongs (λ s. set_tree s.tree) (set_tree field.now.tree) task) }
{
    let given = Shared::new(alloc, field.free()?)?;
    let ban = Offers::none(alloc)?;
    Shared::new(
        alloc,
        Task {
            round: 1,
            node: 1,
            generation: 1,
            given,
            ban,
        },
    )
}

/// The root as it begins.
fn root(alloc: Global, field: &SetField) -> Result<NodeState<SetField>, AllocError>
    ensures { IfOk result (λ state. set_tree state.site.tree ≡ set_tree field.now.tree) }
{
    let site = field.root()?;
    let name = field.name(&site);
    Ok(NodeState::begin(alloc, site, name, 1))
}

/// What came of the root's task and of its try, how many tries there were, and how many events at the root.
fn two_visits<K: SetKey, N: Ledger, M: Ledger, R: Wait>(
    rt: &R,
    alloc: Global,
    field: &SetField,
    tries: Blank,
    cap: Blank,
) -> Result<(Came, Came, u64, usize), AllocError>
    requires key { K.sets ≡ Some field.now.tree }
    requires tries { (tries.name ≡ N.name) × (tries.parts ≡ N.parts) × (tries.parts ≡ 1) }
    requires cap { (cap.name ≡ M.name) × (cap.parts ≡ M.parts) × (cap.parts ≡ 1) }
{
    let task = first_task(alloc, field)?;
    let state = root(alloc, field)?;
    let (book, mut shares) = Book::<N, M>::new(alloc, tries, cap, 1, 1)?;
    let Some(mut share) = shares.take_share() else {
        unreachable!();
    };
    let node = LockedNode::<SetField, SetsOf<K>>::new(state);
    let stop = StopFlag::new();
    let first = outcome(node.visit(
        rt,
        field,
        Some(Message::Task(task)),
        &stop,
        &book,
        &mut share,
    ));
    let second = outcome(node.visit(rt, field, None, &stop, &book, &mut share));
    shares.give_share(share);
    let tried = book.total(shares);
    Ok((
        first,
        second,
        tried,
        node.take_history().history().as_slice().len(),
    ))
}

/// Whether a directory finds the node that was opened in it, and one that was not, and how many nodes it hands back
/// behind a root of the same name.
fn handed_back<K: SetKey, R: Wait>(
    rt: &R,
    alloc: Global,
    field: &SetField,
) -> Result<(bool, bool, usize), AllocError>
    requires key { K.sets ≡ Some field.now.tree }
{
    let first = root(alloc, field)?;
    let state = root(alloc, field)?;
    let directory = Directory::<SetField, SetsOf<K>>::new(alloc);
    directory.open(rt, 1, LockedNode::new(state))?;
    let is_there = directory.find(rt, 1)?.is_some();
    let is_other = directory.find(rt, 2)?.is_some();
    let nodes = directory.into_states(first)?;
    Ok((is_there, is_other, nodes.len()))
}

#[test]
fn a_root_takes_its_task_and_tries(rt: HostRuntime) -> Result<(), Fail> {
    let field = leaf(rt.alloc())?;
    let seen = two_visits::<Brand, Brand, Brand, HostRuntime>(
        &rt,
        rt.alloc(),
        &field,
        Blank::new(1),
        Blank::new(1),
    )?;
    assert_eq!(rt; seen, (Came::Nothing, Came::Answer, 1, 2));
    let nodes = handed_back::<Brand, HostRuntime>(&rt, rt.alloc(), &field)?;
    assert_eq!(rt; nodes, (true, false, 1));
    Ok(())
}
