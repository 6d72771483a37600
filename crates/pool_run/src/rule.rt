//! The rule of a deque: an entry that went in is in the deque, or was taken once.

ghost use Rattle.std.specs.Prelude.{◌≡◌, [], ◌∷◌, ◌++◌};
ghost use Rattle.pool_run.specs.Fair.{hand, IsBalanced};

use crate::entry::{Entry, Hand};
use crossbeam_deque::protocol::{Outcome, Protocol};
use nego_laws::field::Field;
use nego_lock::locked::Key;

/// An entry that went in is in the deque, or was taken once.
pub(crate) struct OnceTaken;

impl<F: Field, K: Key<F>> Protocol<Entry<F, K>, Hand<F, K>> for OnceTaken {
    ghost holds = { IsBalanced };

    ghost first = { hand [] [] };

    ghost guest = { hand [] [] };
}

/// A put is noted.
pub(crate) struct Put;

impl<F: Field, K: Key<F>> Outcome<Entry<F, K>, Hand<F, K>> for Put {
    ghost then = { λ v xs w. w ≡ hand (v.put ++ xs) v.taken };
}

/// A taking is noted.
pub(crate) struct Took;

impl<F: Field, K: Key<F>> Outcome<Entry<F, K>, Hand<F, K>> for Took {
    ghost then = { λ v xs w. w ≡ hand v.put (v.taken ++ xs) };
}
