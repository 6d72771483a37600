//! The histories of a search's last round.

ghost use Rattle.std.specs.Prelude.{◌≡◌, IfOk};
ghost use Rattle.goeland_report.specs.Asked.{asked_of};
ghost use Rattle.history_text.specs.Lines.{history_of};
ghost use Rattle.goeland_run.specs.Histories.{histories_of, asked_history, engine_or_plain};

use containers::Items;
use deepening::Kept;
use goeland_report::NodeLines;
use history_text::NodeLine;
use nego_node::node::Nodes;
use round_offers::TabOffer;
use std::alloc::{AllocError, Global};
use tab_field::TabField;
use tab_tree::Engine;

/// The names and the histories of the nodes.
fn lines_of(alloc: Global, nodes: &Nodes<TabField>) -> Result<NodeLines<'_, TabOffer>, AllocError>
    ensures { IfOk result (λ lines. history_of lines ≡ histories_of nodes.now) }
{
    let mut lines = Items::new(alloc);
    for node in nodes.as_slice() {
        lines.push(NodeLine {
            name: node.node_name(),
            events: node.history().as_slice(),
        })?;
    }
    Ok(lines)
}

/// The histories of the last round, where they are asked for.
pub(crate) fn asked_lines(
    alloc: Global,
    asked: bool,
    kept: &Kept,
) -> Result<Option<NodeLines<'_, TabOffer>>, AllocError>
    ensures { IfOk result (λ lines. asked_of lines ≡ asked_history asked kept.now) }
{
    if !asked {
        return Ok(None);
    }
    Ok(Some(lines_of(alloc, &kept.nodes)?))
}

/// What settled the last round, or the plain engine where there was none.
pub(crate) fn engine_of(kept: &Kept) -> Engine
    ensures { result ≡ engine_or_plain kept.now.engine }
{
    match kept.engine {
        Some(engine) => engine,
        None => Engine::Plain,
    }
}
