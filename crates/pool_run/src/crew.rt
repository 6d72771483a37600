//! How the workers' desks are made, and how their shares are taken and given back.

ghost use Rattle.std.specs.Prelude.{◌≡◌, ◌+◌, ◌<◌, IfOk, vec_len, length};

use crate::desk::{Desk, Own, Thief};
use nego_laws::field::Field;
use nego_lock::locked::Key;
use std::alloc::{AllocError, Global};
use std::sync::Mutex;
use std::sync::ledger::Ledger;
use step_book::{Share, Shares};

/// How many entries a deque has room for at first.
const FIRST_ROOM: usize = 64;

/// A deque for each worker, who takes from it what it queued last, while the others take what was queued first.
fn owners<F: Field, K: Key<F>>(alloc: Global, workers: u32) -> Result<Vec<Own<F, K>>, AllocError>
    ensures { IfOk result (λ v. vec_len v ≡ workers) }
{
    let mut all = Vec::new(alloc);
    for i in 0..workers {
        all.push(Own::lifo_as(alloc, FIRST_ROOM)?)?;
    }
    Ok(all)
}

/// For one worker, passes to the deques of the others.
fn thieves<F: Field, K: Key<F>>(
    alloc: Global,
    owners: &[Own<F, K>],
    own: usize,
) -> Result<Vec<Thief<F, K>>, AllocError> {
    let mut all = Vec::new(alloc);
    for (i, owner) in owners.iter().enumerate() {
        if i != own {
            all.push(Thief::of(owner)?)?;
        }
    }
    Ok(all)
}

/// For each worker, passes to the deques of the others.
fn all_thieves<F: Field, K: Key<F>>(
    alloc: Global,
    owners: &[Own<F, K>],
) -> Result<Vec<Vec<Thief<F, K>>>, AllocError>
    ensures { IfOk result (λ v. vec_len v ≡ length owners.now) }
{
    let mut all = Vec::new(alloc);
    for i in 0..owners.len() {
        all.push(thieves(alloc, owners, i)?)?;
    }
    Ok(all)
}

/// A desk for each deque, behind a lock of its own.
fn locked<F: Field, K: Key<F>>(
    alloc: Global,
    owners: Vec<Own<F, K>>,
    thieves: Vec<Vec<Thief<F, K>>>,
) -> Result<Vec<Mutex<Desk<F, K>>>, AllocError>
    requires { vec_len thieves ≡ vec_len owners }
    ensures { IfOk result (λ v. vec_len v ≡ vec_len owners) }
{
    let mut owners = owners;
    let mut thieves = thieves;
    let mut all = Vec::new(alloc);
    while let Some(own) = owners.pop() {
        let Some(others) = thieves.pop() else {
            unreachable!();
        };
        all.push(Mutex::new(Desk::new(own, others)))?;
    }
    Ok(all)
}

/// A desk for each worker, behind a lock of its own, which that worker alone takes.
pub(crate) fn desks<F: Field, K: Key<F>>(
    alloc: Global,
    workers: u32,
) -> Result<Vec<Mutex<Desk<F, K>>>, AllocError>
    ensures { IfOk result (λ v. vec_len v ≡ workers) }
{
    let owners = owners(alloc, workers)?;
    let thieves = all_thieves(alloc, owners.as_slice())?;
    locked(alloc, owners, thieves)
}

/// Takes all shares out.
pub(crate) fn take_shares<N: Ledger, M: Ledger>(
    alloc: Global,
    shares: &mut Shares<N, M>,
) -> Result<Vec<Share<N>>, AllocError>
    ensures all { IfOk result (λ v. (vec_len v ≡ length shares.old.held) × (length shares.new.held ≡ 0)) }
    ensures same { (shares.new.made ≡ shares.old.made) × (shares.new.limit ≡ shares.old.limit) }
{
    let mut all = Vec::new(alloc);
    while let Some(share) = shares.take_share() {
        all.push(share)?;
    }
    Ok(all)
}

/// Puts the shares back.
pub(crate) fn give_back<N: Ledger, M: Ledger>(taken: Vec<Share<N>>, shares: &mut Shares<N, M>)
    requires { length shares.old.held + vec_len taken ≡ shares.old.made }
    ensures all { length shares.new.held ≡ shares.new.made }
    ensures same { (shares.new.made ≡ shares.old.made) × (shares.new.limit ≡ shares.old.limit) }
{
    let mut taken = taken;
    while let Some(share) = taken.pop() {
        shares.give_share(share);
    }
}
