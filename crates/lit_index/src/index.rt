//! An index of literals that shares what it held when it was forked.
ghost use Rattle.std.specs.Prelude.{◌≡◌, [], ◌∷◌, ◌++◌, ◌<◌, not, All, AllPairs, OnOk, OnErr, IfOk};
ghost use Rattle.lit_index.specs.Occurrences.{occurrence, places_of};
ghost use Rattle.lit_index.specs.Chain.{occurrences_above};

use crate::segment::{Literal, Segment};
use containers::{Items, Shared};
use std::alloc::{AllocError, Global};
use std::marker::Model;
use std::sync::Arc;

/// Places in rising order.
pub type Places = Items<u32>;

/// Literals by the places where they stand on a branch, found by sign and predicate.
///
/// To find the places of a literal takes time in proportion to their number and to the forks above, however many
/// literals are held. What an index gets after a fork, the other one does not.
#[derive(Drop)]
pub struct LitIndex {
    last: Option<Arc<Segment, Global>>,
    alloc: Global,
}

impl Model for LitIndex {
    ghost use Rattle.std.specs.Prelude.{List};
    ghost use Rattle.std.specs.Coded.{coded_list};
    ghost use Rattle.lit_index.specs.Occurrences.{Occurrence, occurrence_code};

    ghost Value = { List Occurrence };

    ghost coded = { coded_list occurrence_code };

    ghost use Rattle.std.specs.Prelude.{option_map};
    ghost use Rattle.std.specs.Arc.{arc_value};
    ghost use Rattle.lit_index.specs.Chain.{occurrences_above};

    ghost view = { λ i. occurrences_above (option_map arc_value i.last) };
}

impl LitIndex {
    /// The index that holds no literal. It takes no memory.
    pub fn new(alloc: Global) -> LitIndex
        ensures { result ≡ [] }
    {
        LitIndex { last: None, alloc }
    }

    /// Two indexes equal to this one, in constant time: all that it holds is shared. An error is want of memory.
    pub fn fork(&self) -> Result<(LitIndex, LitIndex), AllocError>
        ensures left { IfOk result (λ indexes. indexes.0 ≡ self.now) }
        ensures right { IfOk result (λ indexes. indexes.1 ≡ self.now) }
    {
        let left = self.copy()?;
        let right = self.copy()?;
        Ok((left, right))
    }

    /// Holds a literal that stands behind all that are held. After an error, which is want of memory, the index is
    /// unchanged.
    pub fn add(&mut self, place: u32, negated: bool, predicate: u32) -> Result<(), AllocError>
        requires { All (λ o. o.place < place) self.old }
        ensures ok { OnOk result (self.new ≡ self.old ++ occurrence place negated predicate ∷ []) }
        ensures err { OnErr result (self.new ≡ self.old) }
    {
        let literal = Literal { negated, predicate };
        if let Some(last) = &mut self.last {
            // nothing else shares the last segment
            if let Some(segment) = Arc::get_mut(last) {
                return segment.add(place, literal);
            }
        }
        let mut segment = Segment::below(self.alloc, self.shared()?)?;
        segment.add(place, literal)?;
        self.last = Some(Arc::new(self.alloc, segment)?);
        Ok(())
    }

    /// The places where a literal of that predicate and of the other sign is held, in rising order. An error is want of
    /// memory.
    pub fn opposites(&self, negated: bool, predicate: u32) -> Result<Places, AllocError>
        ensures places { IfOk result (λ places. places ≡ places_of (not negated) predicate self.now) }
        ensures rising { IfOk result (λ places. AllPairs (λ m n. m < n) places) }
    {
        let literal = Literal {
            negated: !negated,
            predicate,
        };
        match &self.last {
            Some(last) => last.places(self.alloc, literal),
            None => Ok(Items::new(self.alloc)),
        }
    }

    /// What it holds, with another owner.
    fn shared(&self) -> Result<Option<Shared<Segment>>, AllocError>
        ensures { IfOk result (λ above. occurrences_above above ≡ self.now) }
    {
        match &self.last {
            Some(last) => Ok(Some(Shared::from_arc(Arc::try_clone(last)?))),
            None => Ok(None),
        }
    }

    fn copy(&self) -> Result<LitIndex, AllocError>
        ensures { IfOk result (λ index. index ≡ self.now) }
    {
        let last = match &self.last {
            Some(last) => Some(Arc::try_clone(last)?),
            None => None,
        };
        Ok(LitIndex {
            last,
            alloc: self.alloc,
        })
    }
}
