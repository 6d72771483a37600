//! Why a closed tree has no proof within the limits.

use std::alloc::AllocError;
use thiserror::Error;

/// Why a closed tree is not translated.
#[derive(Clone, Copy, Debug, PartialEq, Eq, Error)]
pub enum GsError {
    #[error("the proof's text is longer than the limit")]
    Bytes,
    #[error("a term of the proof nests too deep")]
    Nesting,
    #[error("out of memory")]
    OutOfMemory,
}

impl From<AllocError> for GsError {
    ghost use Rattle.std.specs.Prelude.{◌≡◌};
    ghost use Rattle.deskolem.specs.declared.answer.GsError.TheVariants.{OutOfMemory};

    ghost from_gives = { λ _ e. e ≡ OutOfMemory };

    fn from(_e: AllocError) -> GsError {
        GsError::OutOfMemory
    }
}
