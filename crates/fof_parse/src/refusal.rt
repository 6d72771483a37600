//! Why a text is no problem.

/// Why a statement is refused. Where more than one of these fits, it is the first of them; of an equality, a number, a
/// distinct object and a dollar word it is the one that stands leftmost in the formula.
#[derive(Clone, Copy, Debug, PartialEq, Eq)]
pub enum BadKind {
    /// An `include`.
    Include,
    /// A statement of another language: `tff`, `thf`, `tcf`, `tpi` or `cnf`.
    Language,
    /// The nesting count becomes greater than 500.
    TooDeep,
    /// The tokens are no statement by the grammar.
    Syntax,
    /// `=` or `!=`.
    Equality,
    /// A number as a term.
    Number,
    /// A distinct object, a term in double quotes.
    Distinct,
    /// A word with `$` that is not `$true` or `$false` as a whole atom.
    Dollar,
    /// A role that is none of `Role`.
    Role,
    /// A variable outside the scope of every quantifier that names it.
    FreeVariable,
    /// A conjecture, and an earlier statement is one.
    SecondConjecture,
}
