//! The lines of two nodes.

ghost use Rattle.std.specs.Prelude.{codes, refl};

use crate::{NodeLine, OfferSpelling, spell_history};
use containers::{Items, Shared};
use nego_laws::sets::{SetOffer, SetTree};
use nego_node::events::{Event, Outcome};
use nego_node::tasks::{Offers, Side, Task};
use std::alloc::{AllocError, Global};

/// Writes each set as `{}`.
struct Braces;

impl OfferSpelling for Braces {
    type Offer = SetOffer;

    ghost text = { λ _ s. codes "{}" };

    fn spell(&self, _offer: &SetOffer, out: &mut Vec<u8>) -> Result<(), AllocError> {
        out.extend_from_slice(b"{}")
    }

    ghost line = { λ _ s. refl };
}

fn offer(alloc: Global, set: u64) -> Result<Shared<SetOffer>, AllocError> {
    let sites = Items::new(alloc);
    let tree = Shared::new(alloc, SetTree { sites })?;
    Shared::new(alloc, SetOffer { set, tree })
}

fn task(alloc: Global) -> Result<Shared<Task<SetOffer>>, AllocError> {
    let mut ban = Items::new(alloc);
    ban.push(offer(alloc, 3)?)?;
    ban.push(offer(alloc, 4)?)?;
    let task = Task {
        round: 2,
        node: 6,
        generation: 7,
        given: offer(alloc, 1)?,
        ban: Offers::new(alloc, ban)?,
    };
    Shared::new(alloc, task)
}

fn tries(alloc: Global) -> Result<Items<Event<SetOffer>>, AllocError> {
    let mut events = Items::new(alloc);
    events.push(Event::Received(task(alloc)?))?;
    events.push(Event::Tried(0, Outcome::None))?;
    events.push(Event::Exhausted)?;
    Ok(events)
}

fn parts(alloc: Global) -> Result<Items<Event<SetOffer>>, AllocError> {
    let mut events = Items::new(alloc);
    events.push(Event::Split)?;
    events.push(Event::Adopted(Side::Left, 1, offer(alloc, 5)?))?;
    events.push(Event::Refused(Side::Right, 2))?;
    Ok(events)
}

fn text(alloc: Global) -> Result<Vec<u8>, AllocError> {
    let (tries, parts) = (tries(alloc)?, parts(alloc)?);
    let first = NodeLine {
        name: 1,
        events: parts.as_slice(),
    };
    let second = NodeLine {
        name: 6,
        events: tries.as_slice(),
    };
    let nodes = [first, second];
    let mut out = Vec::new(alloc);
    spell_history(&Braces, nodes.as_slice(), &mut out)?;
    Ok(out)
}

#[test]
fn tells_two_nodes(rt: HostRuntime) -> Result<(), AllocError> {
    let told = text(rt.alloc())?;
    let wanted = b"% node 1 split\n% node 1 adopted left 1 {}\n% node 1 refused right 2\n\
        % node 6 received 7 given {} ban [{},{}]\n% node 6 tried 0 none\n% node 6 exhausted\n";
    assert!(rt; told.as_slice() == wanted.as_slice());
    Ok(())
}
