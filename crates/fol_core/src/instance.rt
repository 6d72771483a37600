//! Instances: the body of a quantifier with a closed term for its variable.
ghost use Rattle.std.specs.Prelude.{◌≡◌, unwrap_or, IfOk};
ghost use Rattle.fol_core.specs.Syntax.{PlainTerms, open_terms, instance, IsClosedTerm};
ghost use Rattle.fol_core.specs.View.{term_of, terms_of, formula_of};

use crate::change::{Change, changed};
use crate::formula::Formula;
use crate::term;
use crate::term::{Term, Terms};
use std::alloc::{AllocError, Global};

/// A closed term for a variable.
#[derive(Drop)]
struct Opening<'a> {
    by: &'a Term,
}

impl<'a> Change<Terms> for Opening<'a> {
    ghost Plain = { PlainTerms };

    ghost plain = { terms_of };

    ghost image = { λ opening k us. open_terms k (term_of opening.by.now) us };

    fn changed(&self, alloc: Global, args: &Terms, level: u32) -> Result<Option<Terms>, AllocError>
        ensures { IfOk result (λ new. terms_of (unwrap_or new args.now)
            ≡ open_terms level (term_of self.now.by.now) (terms_of args.now)) }
    {
        term::all_opened(alloc, args, level, self.by)
    }
}

/// The body of a quantifier, with the term for its variable.
pub fn instantiate(alloc: Global, body: &Formula, by: &Term) -> Result<Formula, AllocError>
    requires { IsClosedTerm (term_of by.now) }
    ensures { IfOk result (λ f. formula_of f ≡ instance (formula_of body.now) (term_of by.now)) }
{
    match changed(alloc, body, 0, &Opening { by })? {
        Some(instance) => Ok(instance),
        None => body.copy(),
    }
}
