//! Why a run ended as it did.

use tab_tree::OpenAnswer;

/// Why a run gave up.
#[derive(Clone, Copy, Debug, PartialEq, Eq)]
pub enum Cause {
    /// No offer closes a tableau up to the limit of depth. The walk over the last one answers where it is open.
    Depth { limit: u32, answer: OpenAnswer },
    /// The round of that depth ended at the limit of tries.
    Tries { made: u64, depth: u32 },
    /// The proof is longer than that many bytes.
    Bytes { limit: u64 },
    /// A term of the proof nests too deep.
    Nesting,
}

/// How a run on a problem of the bench ended.
#[derive(Clone, Copy, Debug, PartialEq, Eq)]
pub enum BenchResult {
    /// With a proof at that depth. The problem's text has so many bytes.
    Proved { depth: u32, bytes: u64 },
    GaveUp { cause: Cause },
}
