//! What stands for variables.
use crate::term::FTerm;
use containers::Items;

/// What stands for a variable.
#[derive(Drop)]
pub enum Fill {
    Given(FTerm),
    /// The variable is left as it is.
    Unused,
}

/// What stands for the variables of stripped quantifiers, the innermost first.
pub type Fills = Items<Fill>;
