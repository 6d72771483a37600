//! Equality of offers.

ghost use Rattle.std.specs.Prelude.{◌≡◌, ◌↔◌, IsTrue};

use crate::bindings::Binding;
use crate::subst::Subst;
use free_terms::same_term;

/// Whether they are the same list of bindings. It takes no memory.
pub fn same(a: &Subst, b: &Subst) -> bool
    ensures { IsTrue result ↔ (a.now ≡ b.now) }
{
    let a = a.bindings().as_slice();
    let b = b.bindings().as_slice();
    if a.len() != b.len() {
        return false;
    }
    for i in 0..a.len() {
        if !same_binding(&a[i], &b[i]) {
            return false;
        }
    }
    true
}

pub(crate) fn same_binding(a: &Binding, b: &Binding) -> bool
    ensures { IsTrue result ↔ (a.now ≡ b.now) }
{
    a.name == b.name && same_term(&a.term, &b.term)
}
