//! What a call of `next` answers.
use crate::branch::Branch;
use crate::step::TabStep;

/// What one step came to.
#[derive(Drop)]
pub enum Next {
    /// There is no step.
    Done(Branch),
    /// A step within the segment was done.
    One(Branch, TabStep),
    /// The step is a split of the entry at the place, which is now ready. Nothing was done.
    Splits { branch: Branch, place: u32 },
}

/// Memory was wanting; the branch is as it was.
#[derive(Drop)]
pub struct NextRefused {
    pub branch: Branch,
}
