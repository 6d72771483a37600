//! Tests of offers against lists of offers. Each takes a walk along the lists and no memory.

ghost use Rattle.std.specs.Prelude.{◌≡◌, ◌&&◌, ◌↔◌, All, IsTrue};
ghost use Rattle.nego_node.specs.Truth.{entails_some};
ghost use Rattle.nego_node.specs.Machine.{all_entail_some};
ghost use Rattle.nego_node.specs.Sound.{Belongs};
ghost use Rattle.nego_node.specs.Bans.{serves_too};

use crate::tasks::Task;
use containers::Shared;
use nego_laws::field::{Field, Offer};

/// Whether the offer entails a member of the list.
pub(crate) fn entails_some<F: Field>(field: &F, s: &F::Offer, list: &[Shared<F::Offer>]) -> bool
    requires offer { F.Offer.tree s.now ≡ F.tree field.now }
    requires list { All (λ b. F.Offer.tree b ≡ F.tree field.now) list.now }
    ensures { result ≡ entails_some (F.tree field.now) s.now list.now }
{
    let mut rest = list;
    while let [first, more @ ..] = rest {
        if field.entails(s, first.get()) {
            return true;
        }
        rest = more;
    }
    false
}

/// Whether the offer entails a member of the list. The member at a place is tried first, if there is one.
fn entails_some_near<F: Field>(
    field: &F,
    s: &F::Offer,
    list: &[Shared<F::Offer>],
    place: usize,
) -> bool
    requires offer { F.Offer.tree s.now ≡ F.tree field.now }
    requires list { All (λ b. F.Offer.tree b ≡ F.tree field.now) list.now }
    ensures { result ≡ entails_some (F.tree field.now) s.now list.now }
{
    match list.get(place) {
        None => entails_some(field, s, list),
        Some(near) => field.entails(s, near.get()) || entails_some(field, s, list),
    }
}

/// Whether each of these entails one of those. It tries the same place first: where a list of bans has grown at its
/// end, the test takes time in proportion to the list.
pub(crate) fn all_entail_some<F: Field>(
    field: &F,
    these: &[Shared<F::Offer>],
    those: &[Shared<F::Offer>],
) -> bool
    requires these { All (λ b. F.Offer.tree b ≡ F.tree field.now) these.now }
    requires those { All (λ b. F.Offer.tree b ≡ F.tree field.now) those.now }
    ensures { result ≡ all_entail_some (F.tree field.now) these.now those.now }
{
    let mut rest = these;
    let mut place = 0;
    while let [first, more @ ..] = rest {
        if !entails_some_near(field, first.get(), those, place) {
            return false;
        }
        rest = more;
        place = place.saturating_add(1);
    }
    true
}

/// Whether what was found for the held task serves the new one too, of which the offer is no answer.
pub(crate) fn can_go_on<F: Field>(
    field: &F,
    held: &Task<F::Offer>,
    offer: &F::Offer,
    task: &Task<F::Offer>,
) -> bool
    requires held { Belongs F.Offer.tree (F.tree field.now) held.now }
    requires offer { F.Offer.tree offer.now ≡ F.tree field.now }
    requires task { Belongs F.Offer.tree (F.tree field.now) task.now }
    ensures { result ≡ serves_too (F.tree field.now) held.now offer.now task.now }
{
    field.same(held.given.get(), task.given.get())
        && all_entail_some(field, held.ban.as_slice(), task.ban.as_slice())
        && entails_some(field, offer, task.ban.as_slice())
}

/// Whether two lists have the same offers in the same order.
fn same_offers<F: Field>(field: &F, a: &[Shared<F::Offer>], b: &[Shared<F::Offer>]) -> bool
    requires a { All (λ x. F.Offer.tree x ≡ F.tree field.now) a.now }
    requires b { All (λ x. F.Offer.tree x ≡ F.tree field.now) b.now }
    ensures { IsTrue result ↔ (a.now ≡ b.now) }
{
    let mut these = a;
    let mut those = b;
    while let ([x, xs @ ..], [y, ys @ ..]) = (these, those) {
        if !field.same(x.get(), y.get()) {
            return false;
        }
        these = xs;
        those = ys;
    }
    these.is_empty() && those.is_empty()
}

/// Whether two tasks are the same.
pub(crate) fn same_task<F: Field>(field: &F, a: &Task<F::Offer>, b: &Task<F::Offer>) -> bool
    requires a { Belongs F.Offer.tree (F.tree field.now) a.now }
    requires b { Belongs F.Offer.tree (F.tree field.now) b.now }
    ensures { IsTrue result ↔ (a.now ≡ b.now) }
{
    a.round == b.round
        && a.node == b.node
        && a.generation == b.generation
        && field.same(a.given.get(), b.given.get())
        && same_offers(field, a.ban.as_slice(), b.ban.as_slice())
}
