//! The limits of the options' values, and what stands for an option that is left out.

/// The greatest depth limit.
pub(crate) const MAX_DEPTH: u64 = 64;

pub(crate) const DEFAULT_DEPTH: u64 = 8;

/// The greatest number of workers.
pub(crate) const MAX_WORKERS: u64 = 64;

pub(crate) const DEFAULT_WORKERS: u64 = 4;

/// The greatest limit of tries of a round.
pub(crate) const MAX_TRIES: u64 = 1_000_000_000_000;

pub(crate) const DEFAULT_PROOF_BYTES: u64 = 67_108_864;

/// The greatest start of a schedule's generator.
pub(crate) const MAX_SEED: u64 = 18_446_744_073_709_551_615;

/// The greatest number of picks of a schedule.
pub(crate) const MAX_TURNS: u64 = 1_000_000;

/// The greatest number of a problem that `bench` makes.
pub(crate) const MAX_PROBLEM: u64 = 100;
