//! Formulas of the free-variable tableau.
use crate::term::FTerms;
use containers::Items;
use fol_core::Formula;

/// A formula of the free-variable tableau: one over terms with metavariables and Skolem terms.
pub type FFormula = Formula<FTerms>;

pub type FFormulas = Items<FFormula>;
