//! Steps that were done.

ghost use Rattle.std.specs.Prelude.{◌≡◌, IfOk};

use containers::{Items, Shared};
use free_terms::Name;
use rewrite_rules::Rewritten;
use std::alloc::AllocError;

/// What a step within a segment does with its principal entry.
#[derive(Drop)]
pub enum TabKind {
    /// It appends the parts of a conjunctive formula.
    Alpha,
    /// It rewrites a literal.
    Rewrite(Shared<Rewritten>),
    /// It appends an instance with a new Skolem symbol.
    Skolem(Name),
    /// It appends an instance with a new metavariable.
    Instance(Name),
}

/// A step within a segment: the place of its principal entry, and how many entries it appended.
#[derive(Drop)]
pub struct TabStep {
    pub place: u32,
    pub kind: TabKind,
    pub appended: u32,
}

pub type TabSteps = Items<TabStep>;

/// A step done on a branch: one within a segment, or one side of a split, by the place of its principal entry.
#[derive(Drop)]
pub enum Done {
    Step(u32, TabKind),
    Left(u32),
    Right(u32),
}

impl TabKind {
    /// An equal one, in constant time.
    pub fn copy(&self) -> Result<TabKind, AllocError>
        ensures { IfOk result (λ k. k ≡ self.now) }
    {
        match self {
            TabKind::Alpha => Ok(TabKind::Alpha),
            TabKind::Rewrite(r) => Ok(TabKind::Rewrite(r.copy()?)),
            TabKind::Skolem(x) => Ok(TabKind::Skolem(*x)),
            TabKind::Instance(x) => Ok(TabKind::Instance(*x)),
        }
    }
}

impl Done {
    /// An equal one, in constant time.
    pub(crate) fn copy(&self) -> Result<Done, AllocError>
        ensures { IfOk result (λ d. d ≡ self.now) }
    {
        match self {
            Done::Step(i, kind) => Ok(Done::Step(*i, kind.copy()?)),
            Done::Left(i) => Ok(Done::Left(*i)),
            Done::Right(i) => Ok(Done::Right(*i)),
        }
    }
}
