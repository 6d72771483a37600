//! What a run decides before it prints.

ghost use Rattle.std.specs.Prelude.{◌≡◌};
ghost use Rattle.deepening.specs.Kept.{IsEmpty};

use crate::printed::Printed;
use crate::status::Status;
use deepening::Kept;
use std::alloc::Global;

/// What a run has to print, how it ends then, and its last round.
#[derive(Drop)]
pub(crate) struct Decided {
    pub(crate) printed: Printed,
    pub(crate) status: Status,
    pub(crate) kept: Kept,
}

/// A run without a round.
pub(crate) fn at_once(alloc: Global, printed: Printed, status: Status) -> Decided
    ensures printed { result.printed ≡ printed }
    ensures status { result.status ≡ status }
    ensures kept { IsEmpty result.kept }
{
    Decided {
        printed,
        status,
        kept: Kept::new(alloc),
    }
}
