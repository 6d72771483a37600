//! What gives the bytes of a name.

ghost use Rattle.std.specs.Prelude.{◌≡◌, ◌≢◌, ℕ, ◌+◌, ◌≤◌, List, Option};
ghost use Rattle.std.specs.Prelude.{IfOk, IfSome, length, vec_len};
ghost use Rattle.gl_outside.specs.Outside.{HasRisen};
ghost use Rattle.gl_outside.specs.declared.shelf.FetchError.TheVariants as error;

use std::alloc::{AllocError, AllocFailed, Global};
use thiserror::Error;

/// Why a shelf gave no bytes.
#[derive(Clone, Copy, Debug, PartialEq, Eq, Error)]
pub enum FetchError {
    /// The name could not be read.
    #[error("the input could not be read")]
    Failed,
    /// The name has more bytes than were asked for.
    #[error("the input is too long")]
    TooLong,
    #[error("out of memory")]
    OutOfMemory,
}

impl From<AllocError> for FetchError {
    ghost use Rattle.std.specs.Prelude.{◌≡◌};
    ghost use Rattle.gl_outside.specs.declared.shelf.FetchError.TheVariants.{OutOfMemory};

    ghost from_gives = { λ _ e. e ≡ OutOfMemory };

    fn from(_e: AllocError) -> FetchError {
        FetchError::OutOfMemory
    }
}

/// What gives the bytes of a name, as the files of a computer.
pub trait Shelf {
    /// The bytes of a name, which a shelf may leave untold.
    ghost holds: { Self → List ℕ → Option (List ℕ) };

    /// How many calls have failed. At 2^64 - 1 the count stays.
    ghost faults: { Self → ℕ };

    /// The bytes of a name, if they are at most `max`.
    fn fetch(&mut self, alloc: Global, name: &str, max: u64) -> Result<Vec<u8>, FetchError>
        // They are the bytes of the name, where these are told, and at most `max`.
        ensures bytes { IfOk result (λ v. IfSome (holds self.old name.now) (λ bytes. v.items ≡ bytes)) }
        ensures within { IfOk result (λ v. vec_len v ≤ max) }

        // Told bytes are called too long only where they are; by the clauses above no `Ok` comes then.
        ensures too_long { result ≡ Err error.TooLong
            → IfSome (holds self.old name.now) (λ bytes. max + 1 ≤ length bytes) }

        // A failure is a fault, and nothing else is one.
        ensures failed { result ≡ Err error.Failed → HasRisen (faults self.old) (faults self.new) }
        ensures no_fault { result ≢ Err error.Failed → faults self.new ≡ faults self.old }
        ensures count { faults self.old ≤ faults self.new }

        // After every answer the shelf holds what it held, under each name.
        ensures kept { (other : List ℕ) → holds self.new other ≡ holds self.old other };
}
