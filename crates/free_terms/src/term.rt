//! Terms with metavariables and Skolem terms.
ghost use Rattle.std.specs.Prelude.{◌≡◌, IfOk};

use containers::{Items, Share, Shared};
use std::alloc::{AllocError, Global};

/// The name of a metavariable or of a Skolem symbol: the segment that made it, and its number there, from 1.
#[derive(Clone, Copy, Debug, PartialEq, Eq, Hash)]
pub struct Name {
    pub segment: u128,
    pub count: u32,
}

/// A term of the free-variable tableau. A copy shares the arguments with what it copies.
#[derive(Drop)]
pub enum FTerm {
    /// A bound variable, counted from the innermost quantifier.
    Bound(u32),
    /// A metavariable, which stands for a term that is still to be found.
    Meta(Name),
    /// A Skolem symbol and its arguments.
    Skolem(Name, Shared<Items<FTerm>>),
    /// A function symbol's number and its arguments.
    App(u32, Shared<Items<FTerm>>),
}

/// The arguments of a term or an atom, shared by all copies of them.
pub type FTerms = Shared<Items<FTerm>>;

impl FTerm {
    /// An equal term, in constant time: the arguments are shared.
    pub fn copy(&self) -> Result<FTerm, AllocError>
        ensures { IfOk result (λ t. t ≡ self.now) }
    {
        match self {
            FTerm::Bound(n) => Ok(FTerm::Bound(*n)),
            FTerm::Meta(x) => Ok(FTerm::Meta(*x)),
            FTerm::Skolem(x, us) => Ok(FTerm::Skolem(*x, us.copy()?)),
            FTerm::App(f, us) => Ok(FTerm::App(*f, us.copy()?)),
        }
    }
}

impl Share for FTerm {
    fn share(&self) -> Result<FTerm, AllocError>
        ensures { IfOk result (λ other. other ≡ self.now) }
    {
        self.copy()
    }
}
