//! A segment of an index, and the chain of segments above it.
ghost use Rattle.std.specs.Prelude.{◌≡◌, ◌++◌, ◌∷◌, ◌<◌, All, AllPairs, IfOk, OnOk, OnErr};
ghost use Rattle.lit_index.specs.Occurrences.{places_of};
ghost use Rattle.lit_index.specs.Chain.{occurrences_above, chain_with};
ghost use Rattle.lit_index.specs.Links.{own_of, places_back, AreLinked, AreNewest};

use containers::{Items, Shared};
use std::alloc::{AllocError, Global};
use std::collections::HashMap;
use std::marker::Model;

/// What literals are looked for by.
#[derive(Clone, Copy, PartialEq, Eq, Hash)]
pub(crate) struct Literal {
    pub(crate) negated: bool,
    pub(crate) predicate: u32,
}

/// A literal at a place, and where the one before it with the same sign and predicate stands in the segment's list.
#[derive(Clone, Copy)]
struct Held {
    place: u32,
    literal: Literal,
    earlier: Option<usize>,
}

/// The literals that an index got since it was last forked. Those before them are shared with the other indexes.
pub(crate) struct Segment {
    above: Option<Shared<Segment>>,
    depth: u64,
    held: Vec<Held>,
    newest: HashMap<Literal, usize>,
}

impl Model for Segment {
    ghost use Rattle.std.specs.Prelude.{◌≡◌, ◌<◌, ◌++◌, AllPairs};
    ghost use Rattle.std.proofs.Common.{arith};
    ghost use Rattle.lit_index.specs.Occurrences.{IsBefore};
    ghost use Rattle.lit_index.specs.Chain.{Chain, chain_code, occurrences_above, IsBelow};
    ghost use Rattle.lit_index.specs.Links.{own_of, AreLinked, AreNewest};

    ghost Value = { Chain };

    ghost coded = { chain_code };

    ghost view = { λ s. record { occurrences = occurrences_above s.above ++ own_of s.held.items; depth = s.depth } };

    ghost invariant = { λ s.
        IsBelow s.above s.depth × AllPairs IsBefore (occurrences_above s.above ++ own_of s.held.items)
        × AreLinked s.held.items × AreNewest (own_of s.held.items) s.newest };

    ghost size = { λ c. c.depth };

    ghost size_decreases = { λ a h. Prim.grind (arith) };
}

/// Lets the segments go that nothing else owns, one after another: a long chain takes no deep stack.
impl Drop for Segment {
    fn drop(mut self) {
        loop {
            let Segment {
                above,
                depth: _,
                held,
                newest,
            } = self;
            drop(held);
            drop(newest);
            match above {
                Some(above) => match above.into_inner() {
                    Some(last) => self = last,
                    None => return,
                },
                None => return,
            }
        }
    }
}

impl Segment {
    /// A segment below another, without a literal. It takes no memory. An error is that 18,446,744,073,709,551,615
    /// segments stand above.
    pub(crate) fn below(
        alloc: Global,
        above: Option<Shared<Segment>>,
    ) -> Result<Segment, AllocError>
        ensures { IfOk result (λ s. s.occurrences ≡ occurrences_above above) }
    {
        let depth = match &above {
            None => 0,
            Some(above) => match above.get().depth.checked_add(1) {
                Some(depth) => depth,
                None => return Err(AllocError),
            },
        };
        Ok(Segment {
            above,
            depth,
            held: Vec::new(alloc),
            newest: HashMap::new(alloc),
        })
    }

    /// Adds a literal at the end. After an error the segment is unchanged.
    pub(crate) fn add(&mut self, place: u32, literal: Literal) -> Result<(), AllocError>
        requires { All (λ o. o.place < place) self.old.occurrences }
        ensures ok { OnOk result (self.new ≡ chain_with self.old place literal.negated literal.predicate) }
        ensures err { OnErr result (self.new ≡ self.old) }
    {
        let earlier = self.newest.get(&literal).copied();
        self.held.reserve(1)?;
        self.newest.insert(literal, self.held.len())?;
        match self.held.push(Held {
            place,
            literal,
            earlier,
        }) {
            Ok(()) => Ok(()),
            Err(_) => unreachable!(),
        }
    }

    /// The places of a literal.
    pub(crate) fn places(&self, alloc: Global, literal: Literal) -> Result<Items<u32>, AllocError>
        ensures places { IfOk result (λ ps. ps ≡ places_of literal.negated literal.predicate self.now.occurrences) }
        ensures rising { IfOk result (λ ps. AllPairs (λ m n. m < n) ps) }
    {
        let _ = &self.depth;
        let mut places = Vec::new(alloc);
        self.places_back(literal, &mut places)?;
        places.reverse();
        Ok(Items::from_vec(places))
    }

    /// Adds the places of a literal to the list, the newest first.
    fn places_back(&self, literal: Literal, out: &mut Vec<u32>) -> Result<(), AllocError>
        ensures { OnOk result (out.new.items ≡ out.old.items ++ places_back literal self.now.occurrences) }
    {
        let mut at = self;
        loop {
            own_places(&at.held, &at.newest, literal, out)?;
            match &at.above {
                Some(above) => at = above.get(),
                None => return Ok(()),
            }
        }
    }
}

/// Adds the places of a literal in a segment's own list, the newest first.
fn own_places(
    held: &Vec<Held>,
    newest: &HashMap<Literal, usize>,
    literal: Literal,
    out: &mut Vec<u32>,
) -> Result<(), AllocError>
    requires linked { AreLinked held.now.items }
    requires newest { AreNewest (own_of held.now.items) newest.now }
    ensures { OnOk result (out.new.items ≡ out.old.items ++ places_back literal (own_of held.now.items)) }
{
    let mut at = newest.get(&literal).copied();
    while let Some(i) = at {
        let found = held[i];
        out.push(found.place)?;
        at = found.earlier;
    }
    Ok(())
}
