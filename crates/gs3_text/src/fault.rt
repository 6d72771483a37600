//! Why a part of a text was not read.

use std::alloc::{AllocError, AllocFailed};

/// Why nothing was read.
#[derive(Clone, Copy, Debug, PartialEq, Eq)]
pub(crate) enum Fault {
    /// What was to be read does not stand there.
    Malformed,
    OutOfMemory,
}

impl From<AllocError> for Fault {
    ghost use Rattle.std.specs.Prelude.{◌≡◌};
    ghost use Rattle.gs3_text.specs.declared.fault.Fault.TheVariants.{OutOfMemory};

    ghost from_gives = { λ _ e. e ≡ OutOfMemory };

    fn from(_e: AllocError) -> Fault {
        Fault::OutOfMemory
    }
}

impl<T: Drop> From<AllocFailed<T>> for Fault {
    ghost use Rattle.std.specs.Prelude.{◌≡◌};
    ghost use Rattle.gs3_text.specs.declared.fault.Fault.TheVariants.{OutOfMemory};

    ghost from_gives = { λ _ e. e ≡ OutOfMemory };

    fn from(_e: AllocFailed<T>) -> Fault {
        Fault::OutOfMemory
    }
}
