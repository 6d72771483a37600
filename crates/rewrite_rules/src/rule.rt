//! A rule, and what it makes of a literal.
use fol_core::Terms;
use free_terms::{FFormula, Fills};

/// An equivalence among the axioms, as a rule that rewrites its head, an atom, to its body.
#[derive(Drop)]
pub struct Rule {
    /// The axiom's place among the axioms, from 0.
    pub axiom: u32,
    /// How many quantifiers stand around the equivalence.
    pub count: u32,
    /// Whether the head is the left side.
    pub head_left: bool,
    /// The head's predicate symbol.
    pub predicate: u32,
    /// The head's arguments.
    pub arguments: Terms,
    /// The other side.
    pub body: FFormula,
}

/// What a literal is rewritten to, and by which rule.
#[derive(Drop)]
pub struct Rewritten {
    /// The place of the rule's axiom.
    pub axiom: u32,
    /// Whether the rule's head is the left side.
    pub head_left: bool,
    /// What stands for the variables of the axiom's quantifiers, the innermost first.
    pub fills: Fills,
    /// The body's instance, or its negation for a negated atom.
    pub result: FFormula,
}
