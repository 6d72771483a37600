//! What it means for the round's tableau that offers solve the root.

ghost use Rattle.tab_field.specs.Join.{SolvesWhereCloses, ClosesWhereSolved};

use crate::field::TabField;

/// An offer solves the root exactly where it closes the round's tableau. Where no offer of the field solves the root,
/// no offer at all closes the tableau, also none with terms that are not of the round. It does nothing.
pub fn solves_where_closes(_field: &TabField)
    ensures each { SolvesWhereCloses _field.now.round }
    ensures none { ClosesWhereSolved _field.now.round }
{}
