//! The split of a node into its parts.

ghost use Rattle.std.specs.Prelude.{◌≡◌, [], ◌++◌, ◌∷◌, ◌<◌, OnOk, IfOk, OnErr};
ghost use Rattle.nego_laws.specs.Tree.{left_of, right_of};
ghost use Rattle.nego_node.specs.Machine.{after};
ghost use Rattle.nego_node.specs.Lawful.{MaySplit};
ghost use Rattle.nego_node.specs.Moves.{Did};
ghost use Rattle.nego_node.specs.declared.moves.Move.TheVariants as moves;
ghost use Rattle.nego_node.specs.declared.events.Event.TheVariants.{Split};

use crate::events::Event;
use crate::node::NodeState;
use nego_laws::field::Field;
use std::alloc::AllocError;

impl<F: Field> NodeState<F> {
    /// Records that the node has split.
    fn divide(&mut self, _field: &F)
        requires tree { F.around self.old.site ≡ F.tree _field.now }
        requires spare { 0 < self.old.spare }
        requires lawful { MaySplit (F.around self.old.site) self.old.state }
        ensures site { self.new.site ≡ self.old.site }
        ensures state { self.new.state ≡ after (F.around self.old.site) self.old.state Split }
        ensures history { self.new.history ≡ self.old.history ++ Split ∷ [] }
    {
        self.has_split = true;
        self.history.put(Event::Split);
    }

    /// Splits, and hands out the two parts of the site. Splitting must be lawful.
    pub fn split_into(&mut self, field: &F) -> Result<(F::Site, F::Site), AllocError>
        requires tree { F.around self.old.site ≡ F.tree field.now }
        requires lawful { MaySplit (F.around self.old.site) self.old.state }
        ensures site { self.new.site ≡ self.old.site }
        ensures trees { IfOk result (λ two. (F.around two.0 ≡ F.tree field.now) × (F.around two.1 ≡ F.tree field.now)) }
        ensures names { IfOk result
            (λ two. (F.named two.0 ≡ left_of self.old.state.name) × (F.named two.1 ≡ right_of self.old.state.name)) }
        ensures did { OnOk result (Did F.Offer.tree
            (F.around self.old.site) moves.Split self.old.state self.new.state self.old.history self.new.history) }
        ensures state_after_err { OnErr result (self.new.state ≡ self.old.state) }
        ensures history_after_err { OnErr result (self.new.history ≡ self.old.history) }
    {
        self.reserve(1)?;
        let two = match field.parts(&self.site)? {
            None => unreachable!(),
            Some(two) => two,
        };
        self.divide(field);
        Ok(two)
    }
}
