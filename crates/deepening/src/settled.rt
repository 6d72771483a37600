//! A round that was settled.

use crate::endings::Ending;
use crate::kept::Kept;

/// How a round ends the search, and what is kept of it. The ending is None where no offer closes the round's tableau.
#[derive(Drop)]
pub(crate) struct SettledRound {
    pub(crate) ending: Option<Ending>,
    pub(crate) kept: Kept,
}
