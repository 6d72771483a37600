//! The limits of a search.

/// The attempts of a pool in one round, where the words set no limit.
pub const POOL_TRIES: u64 = 100_000;

/// How far a search goes.
#[derive(Clone, Copy)]
pub struct Limits {
    /// The greatest depth of a tableau, at least 1.
    pub depth: u32,
    /// The attempts of each round. No limit where it is None.
    pub tries: Option<u64>,
    /// The bytes of a proof's text.
    pub proof_bytes: u64,
}
