//! The lines of histories.

ghost use Rattle.std.specs.Prelude.{◌≡◌, ◌++◌, ◌∷◌, [], OnOk, OnErr};
ghost use Rattle.fol_core.specs.Spelling.{IsGrown};
ghost use Rattle.gs3_text.specs.ProofText.{text_of};
ghost use Rattle.history_text.specs.Lines.{event_line, node_lines, history_lines, history_of};

use crate::event::append_event;
use crate::node_line::NodeLine;
use crate::spelling::OfferSpelling;
use nego_node::events::Event;
use offer_text::spell_number;
use std::alloc::AllocError;

/// Appends the line of an event at the node of that name.
#[tactic(auto, using(fol_core::proofs::Grown::growing))]
fn append_line<S: OfferSpelling>(
    spelling: &S,
    name: u128,
    event: &Event<S::Offer>,
    out: &mut Vec<u8>,
) -> Result<(), AllocError>
    ensures ok { OnOk result (out.new.items
        ≡ out.old.items ++ (event_line (S.text spelling.now) name event.now ++ 10 ∷ [])) }
    ensures grows { IsGrown out.old.items out.new.items }
{
    spell_number(b"% node ", name, out)?;
    out.push(b' ')?;
    append_event(spelling, event, out)?;
    out.push(b'\n')?;
    Ok(())
}

/// Appends a line for each event at the node of that name.
#[tactic(auto, using(fol_core::proofs::Grown::growing))]
fn append_node<S: OfferSpelling>(
    spelling: &S,
    name: u128,
    events: &[Event<S::Offer>],
    out: &mut Vec<u8>,
) -> Result<(), AllocError>
    ensures ok { OnOk result (out.new.items
        ≡ out.old.items ++ text_of (node_lines (S.text spelling.now) name events.now)) }
    ensures grows { IsGrown out.old.items out.new.items }
{
    for event in events {
        append_line(spelling, name, event, out)?;
    }
    Ok(())
}

#[tactic(auto, using(fol_core::proofs::Grown::growing))]
fn append_history<S: OfferSpelling>(
    spelling: &S,
    nodes: &[NodeLine<S::Offer>],
    out: &mut Vec<u8>,
) -> Result<(), AllocError>
    ensures ok { OnOk result (out.new.items
        ≡ out.old.items ++ text_of (history_lines (S.text spelling.now) (history_of nodes.now))) }
    ensures grows { IsGrown out.old.items out.new.items }
{
    for node in nodes {
        append_node(spelling, node.name, node.events, out)?;
    }
    Ok(())
}

/// Appends a line for each event of each node: the nodes in the order of the list, and a node's events in theirs. After
/// an error `out` is as it was.
#[tactic(auto, using(fol_core::proofs::Grown::growing))]
pub fn spell_history<S: OfferSpelling>(
    spelling: &S,
    nodes: &[NodeLine<S::Offer>],
    out: &mut Vec<u8>,
) -> Result<(), AllocError>
    ensures ok { OnOk result (out.new.items
        ≡ out.old.items ++ text_of (history_lines (S.text spelling.now) (history_of nodes.now))) }
    ensures err { OnErr result (out.new.items ≡ out.old.items) }
{
    let len = out.len();
    let done = append_history(spelling, nodes, out);
    if done.is_err() {
        out.truncate(len);
    }
    done
}
