//! The steps of the translation before their terms are closed.

use containers::{Items, Shared};
use free_terms::Name;
use rewrite_rules::Rewritten;

/// The steps of a rewriting up to its split, and the step that closes the left premise where the literal is negative.
#[derive(Drop)]
pub(crate) struct Rewriting {
    /// How many formulas the proof's list has.
    pub len: u32,
    pub axiom: u32,
    pub literal: u32,
    pub positive: bool,
    pub rewritten: Shared<Rewritten>,
}

/// A step of the translation, or some, before its terms are closed. Places are those of the proof's list.
#[derive(Drop)]
pub(crate) enum Line {
    Close { atom: u32, negated: u32 },
    FalseAt { place: u32 },
    NotTrue { place: u32 },
    Alpha { place: u32 },
    Beta { place: u32 },
    /// The parameter is that of the Skolem symbol.
    Delta { place: u32, name: Name },
    /// The term is that of the metavariable.
    Gamma { place: u32, name: Name },
    Rewrite(Rewriting),
}

pub(crate) type Lines = Items<Line>;

/// A step that closes the right premise of a rewriting, behind all that follows on the left one.
#[derive(Clone, Copy)]
pub(crate) struct Closing {
    pub atom: u32,
    pub negated: u32,
}

pub(crate) type Closings = Items<Closing>;
