//! Which step a formula asks for.

ghost use Rattle.std.specs.Prelude.{◌≡◌};
ghost use Rattle.free_terms.specs.View.{formula_of};
ghost use Rattle.fol_core.specs.Syntax.{not};
ghost use Rattle.branch_rules.specs.Kinds.{kind_of, in_first};

use free_terms::FFormula;

/// A formula's class, by the step that it asks for.
#[derive(Clone, Copy, Debug, PartialEq, Eq)]
pub enum Kind {
    Conjunctive,
    Existential,
    Disjunctive,
    Universal,
    /// An atom, a negated one, `$true` or `$false`, or its negation: no step but a rewriting serves it.
    Literal,
}

fn kind_of_not(f: &FFormula) -> Kind
    ensures { result ≡ kind_of (not (formula_of f.now)) }
{
    match f {
        FFormula::Atom(..) | FFormula::Verum | FFormula::Falsum => Kind::Literal,
        FFormula::Not(_) | FFormula::Or(..) | FFormula::Imp(..) => Kind::Conjunctive,
        FFormula::And(..) | FFormula::Iff(..) => Kind::Disjunctive,
        FFormula::All(_) => Kind::Existential,
        FFormula::Ex(_) => Kind::Universal,
    }
}

pub(crate) fn kind_of(f: &FFormula) -> Kind
    ensures { result ≡ kind_of (formula_of f.now) }
{
    match f {
        FFormula::Atom(..) | FFormula::Verum | FFormula::Falsum => Kind::Literal,
        FFormula::Not(a) => kind_of_not(a.get()),
        FFormula::And(..) => Kind::Conjunctive,
        FFormula::Or(..) | FFormula::Imp(..) | FFormula::Iff(..) => Kind::Disjunctive,
        FFormula::All(_) => Kind::Universal,
        FFormula::Ex(_) => Kind::Existential,
    }
}

/// Whether a formula of the kind is in the first class.
pub(crate) fn in_first(kind: Kind) -> bool
    ensures { result ≡ in_first kind }
{
    match kind {
        Kind::Conjunctive => true,
        Kind::Literal => true,
        Kind::Existential => false,
        Kind::Disjunctive => false,
        Kind::Universal => false,
    }
}
