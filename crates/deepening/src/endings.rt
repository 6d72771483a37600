//! How a search ends.

use gs3_text::Tree;
use tab_tree::OpenAnswer;

/// How a search ends.
#[derive(Drop)]
pub enum Ending {
    /// The steps of a proof.
    Found(Tree),
    /// No offer closes a tableau up to the limit of depth. What the walk of the last one answers.
    Exhausted(OpenAnswer),
    /// A round made as many attempts as are allowed, and the next pick is another one.
    Spent(u64),
    /// The proof's text is longer than allowed.
    Long,
    /// A term of the proof nests deeper than a text allows.
    Deep,
}
