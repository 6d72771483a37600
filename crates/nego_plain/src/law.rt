//! A law of the plain order.

ghost use Rattle.nego_plain.specs.PlainOrder.{HasOnePick};

use nego_laws::field::Field;

/// The pick of the plain order is one: found from a node of any board, there is one act at one node, or none. It does
/// nothing.
pub fn one_pick<F: Field>(_field: &F)
    ensures { HasOnePick (F.tree _field.now) }
{}
