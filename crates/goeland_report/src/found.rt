//! What reports are made of.

use crate::cause::Cause;
use containers::Items;
use history_text::NodeLine;
use nego_laws::field::Offer;
use tab_tree::Engine;

/// The histories of a round's nodes, in the order of their names.
pub type NodeLines<'a, O> = Items<NodeLine<'a, O>>;

/// A proof that was found.
#[derive(Drop)]
pub struct Found<'a, O: Offer> {
    /// Whether the problem has a conjecture.
    pub theorem: bool,
    /// The depth of the tableau.
    pub depth: u32,
    /// What settled the last round.
    pub engine: Engine,
    /// The histories of the last round, where they are asked for.
    pub history: Option<NodeLines<'a, O>>,
    /// The text of the proof, without the lines around it.
    pub text: Vec<u8>,
}

/// Why there is no proof.
#[derive(Drop)]
pub struct Reason<'a, O: Offer> {
    pub cause: Cause,
    /// What settled or ended the last round.
    pub engine: Engine,
    /// The histories of the last round, where they are asked for.
    pub history: Option<NodeLines<'a, O>>,
}

/// What is printed, in two parts. The second one is empty for all but a proof.
#[derive(Drop)]
pub struct Report {
    pub first: Vec<u8>,
    pub second: Vec<u8>,
}
