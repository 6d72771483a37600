//! The number of tries under its lock, and one worker's part of it.

ghost use Rattle.std.specs.Prelude.{◌≡◌, ℕ, ◌+◌, ◌<◌, ◌≤◌, ◌↔◌};

use std::marker::Model;
use std::sync::ledger::Ledger;
use std::sync::{Mutex, Wait, ledger};

/// Whether a try may be made.
#[derive(Clone, Copy, PartialEq, Eq, Debug)]
pub enum Draw {
    /// It may, and is counted.
    Taken,
    /// It may not: the limit is reached.
    Spent,
}

/// One worker's part of the number of tries. Contracts see it as the number that the worker drew.
#[derive(Drop)]
pub struct Share<N: Ledger> {
    part: ledger::Share<N>,
}

impl<N: Ledger> Model for Share<N> {
    ghost Value = { ℕ };

    ghost view = { λ s. s.part.amount };

    ghost invariant = { λ s. s.part.parts ≡ 1 };
}

/// The number of tries and their limit, each booked on a ledger of its own. The number is the sum of all shares, and at
/// most the limit.
#[derive(Drop)]
pub struct Count<N: Ledger, M: Ledger> {
    number: u64,
    limit: u64,
    tries: ledger::Book<N>,
    cap: ledger::Book<M>,
}

impl<N: Ledger, M: Ledger> Model for Count<N, M> {
    ghost use Rattle.std.specs.Prelude.{◌≡◌, ◌≤◌};
    ghost use Rattle.step_book.specs.Values.{CountValue};

    ghost Value = { CountValue };

    ghost view = { λ c. record { number = c.number; limit = c.limit } };

    ghost invariant = { λ c. (c.number ≤ c.limit) × (c.number ≡ c.tries.total) × (c.limit ≡ c.cap.total) };
}

impl<N: Ledger, M: Ledger> Count<N, M> {
    /// Adds one to the number and to the share, or where the number is the limit answers Spent and changes neither. It
    /// takes no memory.
    pub fn take_one(&mut self, share: &mut Share<N>) -> Draw
        ensures spent { (result ≡ Draw.Spent) ↔ (self.old.number ≡ self.old.limit) }
        ensures taken { result ≡ Draw.Taken → (self.new.number ≡ self.old.number + 1) × (share.new ≡ share.old + 1) }
        ensures same { result ≡ Draw.Spent → (self.new.number ≡ self.old.number) × (share.new ≡ share.old) }
        ensures limit { self.new.limit ≡ self.old.limit }
        ensures within { self.new.number ≤ self.new.limit }
    {
        if self.number == self.limit {
            return Draw::Spent;
        }
        self.tries.add(&mut share.part, 1);
        self.number += 1;
        Draw::Taken
    }

    /// The number, for whoever holds every part of both ledgers.
    pub(crate) fn last(mut self, all: &mut ledger::Share<N>, mark: &mut ledger::Share<M>) -> u64
        requires { (all.old.parts ≡ N.parts) × (mark.old.parts ≡ M.parts) }
        ensures sum { result ≡ all.old.amount }
        ensures limit { result ≤ mark.old.amount }
    {
        self.tries.audit(all);
        self.cap.audit(mark);
        self.number
    }
}

/// One part of a whole, with nothing drawn.
pub(crate) fn part_of<N: Ledger>(whole: &mut ledger::Share<N>) -> Share<N>
    requires { (0 < whole.old.parts) × (whole.old.amount ≡ 0) }
    ensures nothing { result ≡ 0 }
    ensures amount { whole.new.amount ≡ 0 }
    ensures parts { whole.new.parts + 1 ≡ whole.old.parts }
{
    Share {
        part: whole.split_off(1, 0),
    }
}

/// A share's part of the ledger.
pub(crate) fn whole_of<N: Ledger>(share: Share<N>) -> ledger::Share<N>
    ensures { (result.parts ≡ 1) × (result.amount ≡ share) }
{
    let Share { part } = share;
    part
}

/// A count of no tries.
pub(crate) fn count_out<N: Ledger, M: Ledger>(
    tries: ledger::Book<N>,
    cap: ledger::Book<M>,
    limit: u64,
) -> Count<N, M>
    requires { (tries.total ≡ 0) × (cap.total ≡ limit) }
    ensures { (result.number ≡ 0) × (result.limit ≡ limit) }
{
    Count {
        number: 0,
        limit,
        tries,
        cap,
    }
}

/// The count behind its lock.
#[derive(Drop)]
pub struct Book<N: Ledger, M: Ledger> {
    count: Mutex<Count<N, M>>,
}

impl<N: Ledger, M: Ledger> Book<N, M> {
    /// Locks a count.
    pub(crate) fn of(count: Count<N, M>) -> Book<N, M> {
        Book {
            count: Mutex::new(count),
        }
    }

    /// The count, which no thread shares any more.
    pub(crate) fn into_count(self) -> Count<N, M> {
        let Book { count } = self;
        count.into_inner()
    }

    /// Calls `take_one` on the locked count. What it changes there is not seen from outside the lock. It takes no
    /// memory, and may wait for the lock.
    pub fn draw<R: Wait>(&self, rt: &R, share: &mut Share<N>) -> Draw
        ensures taken { result ≡ Draw.Taken → share.new ≡ share.old + 1 }
        ensures spent { result ≡ Draw.Spent → share.new ≡ share.old }
    {
        self.count.lock(rt).take_one(share)
    }
}
