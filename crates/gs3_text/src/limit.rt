//! The limit of a proof's text.

/// The most bytes of a proof's text that is read, or that a prover may print.
pub const MAX_PROOF_BYTES: u64 = 134_217_728;
