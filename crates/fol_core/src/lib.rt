//! Terms and formulas of first-order logic.
#![tactic(auto)]

mod change;
mod formula;
mod instance;
mod numbering;
mod spelling;
mod spine;
mod symbols;
mod term;

pub use change::{Change, changed};
pub use formula::{Formula, Formulas, is_closed, occurs_param, param_bound, same};
pub use instance::instantiate;
pub use spelling::{spell_symbol, spell_term};
pub use spine::{Wrap, rebuilt};
pub use symbols::Symbols;
pub use term::{Term, Terms, is_closed_term, param_bound_in_term, same_terms};
