//! The shares of a book, and how a book is opened and closed.

ghost use Rattle.std.specs.Prelude.{
  ◌≡◌,
  ℕ,
  ◌+◌,
  ◌<◌,
  ◌≤◌,
  [],
  ◌∷◌,
  ◌++◌,
  IfOk,
  MatchOption,
  length,
  sum,
  vec_len,
  vec_capacity,
  replicate,
};

use crate::count::{Book, Share, count_out, part_of, whole_of};
use std::alloc::{AllocError, Global};
use std::marker::Model;
use std::sync::ledger;
use std::sync::ledger::{Blank, Ledger};

/// The shares that are held now, how many there are in all, and the limit's part.
#[derive(Drop)]
pub struct Shares<N: Ledger, M: Ledger> {
    held: Vec<Share<N>>,
    made: u32,
    mark: ledger::Share<M>,
}

impl<N: Ledger, M: Ledger> Model for Shares<N, M> {
    ghost use Rattle.std.specs.Prelude.{◌≡◌, ◌<◌, ◌≤◌, vec_len, vec_capacity};
    ghost use Rattle.step_book.specs.Values.{SharesValue};

    ghost Value = { SharesValue };

    ghost view = { λ s. record { held = s.held.items; made = s.made; limit = s.mark.amount } };

    ghost invariant = { λ s. (0 < s.made) × (s.made ≤ vec_capacity s.held) × (vec_len s.held ≤ s.made)
        × (s.mark.parts ≡ 1) };
}

impl<N: Ledger, M: Ledger> Shares<N, M> {
    /// Moves the last share out. None comes exactly where none is held. It takes no memory.
    pub fn take_share(&mut self) -> Option<Share<N>>
        ensures share { MatchOption result ((self.old.held ≡ []) × (self.new.held ≡ []))
            (λ s. self.old.held ≡ self.new.held ++ s ∷ []) }
        ensures made { self.new.made ≡ self.old.made }
        ensures limit { self.new.limit ≡ self.old.limit }
    {
        self.held.pop()
    }

    /// Puts a share back at the end, where fewer are held than there are. It takes no memory.
    pub fn give_share(&mut self, share: Share<N>)
        requires { length self.old.held < self.old.made }
        ensures share { self.new.held ≡ self.old.held ++ share ∷ [] }
        ensures made { self.new.made ≡ self.old.made }
        ensures limit { self.new.limit ≡ self.old.limit }
    {
        self.held.push_reserved(share);
    }
}

impl<N: Ledger, M: Ledger> Book<N, M> {
    /// A book of no tries under a limit, and so many shares of it, at least one. It takes a blank ledger for the
    /// number, of as many parts as there are shares, and one of one part for the limit.
    pub fn new(
        alloc: Global,
        tries: Blank,
        cap: Blank,
        limit: u64,
        shares: u32,
    ) -> Result<(Book<N, M>, Shares<N, M>), AllocError>
        requires some { 0 < shares }
        requires tries { (tries.name ≡ N.name) × (tries.parts ≡ N.parts) × (tries.parts ≡ shares) }
        requires cap { (cap.name ≡ M.name) × (cap.parts ≡ M.parts) × (cap.parts ≡ 1) }
        ensures held { IfOk result (λ two. two.1.held ≡ replicate shares 0) }
        ensures made { IfOk result (λ two. two.1.made ≡ shares) }
        ensures limit { IfOk result (λ two. two.1.limit ≡ limit) }
    {
        let mut held = Vec::with_capacity(alloc, shares as usize)?;
        let (tries, mut whole) = tries.open::<N>();
        let (mut cap, mut mark) = cap.open::<M>();
        cap.add(&mut mark, limit);
        for _i in 0..shares {
            held.push_reserved(part_of(&mut whole));
        }
        let book = Book::of(count_out(tries, cap, limit));
        Ok((
            book,
            Shares {
                held,
                made: shares,
                mark,
            },
        ))
    }

    /// The number of tries, once all shares are back: it is the sum of the shares, and at most the limit. It takes no
    /// memory.
    pub fn total(self, shares: Shares<N, M>) -> u64
        requires all { length shares.held ≡ shares.made }
        requires parts { (shares.made ≡ N.parts) × (M.parts ≡ 1) }
        ensures sum { result ≡ sum shares.held }
        ensures limit { result ≤ shares.limit }
    {
        let Shares {
            mut held,
            made: _,
            mut mark,
        } = shares;
        let Some(first) = held.pop() else {
            unreachable!();
        };
        let mut all = whole_of(first);
        while let Some(share) = held.pop() {
            all.merge(whole_of(share));
        }
        self.into_count().last(&mut all, &mut mark)
    }
}
