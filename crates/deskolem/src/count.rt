//! Counts of bytes and of nesting, up to a limit.

ghost use Rattle.std.specs.Prelude.{◌≡◌, ◌≤◌};
ghost use Rattle.translation.specs.Counting.{digits_of};
ghost use Rattle.deskolem.specs.Sums.{IsSum};
ghost use Rattle.gs3_text.specs.declared.limit.TheConstants.{MAX_PROOF_BYTES};

use crate::answer::GsError;
use itoa::Buffer;

/// No limit of a text is as large, so a length or a depth is counted up to that many.
pub(crate) const MOST_COUNTED: u64 = 134217729;

/// How many bytes a text has so far, and how deep its terms nest.
#[derive(Clone, Copy)]
pub(crate) struct Count {
    pub bytes: u64,
    pub depth: u64,
}

/// How many digits the number has.
pub(crate) fn digits(n: u64) -> u64
    ensures value { result ≡ digits_of n }
    ensures few { result ≤ 20 }
{
    let mut buffer = Buffer::new();
    buffer.format(n).len() as u64
}

/// Adds so many bytes with terms of that depth, and Bytes where there is no more room.
pub(crate) fn add(so_far: Count, bytes: u64, depth: u64, limit: u64) -> Result<Count, GsError>
    requires so_far { so_far.bytes ≤ limit }
    requires limit { limit ≤ MAX_PROOF_BYTES }
    requires bytes { bytes ≤ 1073741824 }
    ensures { IsSum so_far bytes depth limit result }
{
    let bytes = so_far.bytes + bytes;
    if bytes > limit {
        return Err(GsError::Bytes);
    }
    Ok(Count {
        bytes,
        depth: so_far.depth.max(depth),
    })
}
