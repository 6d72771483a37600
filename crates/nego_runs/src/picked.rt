//! Boards after picks.

use crate::scene::{AGREES, field};
use crate::telling::{answer_words, tell_nodes};
use containers::Items;
use nego_core::board::{Board, run_picks};
use nego_core::picks::Pick;
use nego_laws::sets::{SetField, SetOffer};
use nego_node::answers::Answer;
use std::alloc::{AllocError, Global};
use std::io;

/// Receive at the root, twice.
const TWICE: [Pick; 2] = [Pick { node: 0, act: 0 }, Pick { node: 0, act: 0 }];

/// An act above 12, and a node's number modulo the number of nodes.
const BEYOND: [Pick; 2] = [Pick { node: 7, act: 13 }, Pick { node: 7, act: 0 }];

/// The right part's first proposal is refused, since it was not asked for the trial, and its second one agreed to.
const AGREEMENT: [Pick; 17] = [
    Pick { node: 0, act: 0 },
    Pick { node: 0, act: 2 },
    Pick { node: 0, act: 3 },
    Pick { node: 0, act: 4 },
    Pick { node: 1, act: 0 },
    Pick { node: 1, act: 1 },
    Pick { node: 2, act: 0 },
    Pick { node: 2, act: 1 },
    Pick { node: 0, act: 5 },
    Pick { node: 0, act: 6 },
    Pick { node: 0, act: 7 },
    Pick { node: 0, act: 11 },
    Pick { node: 0, act: 4 },
    Pick { node: 2, act: 0 },
    Pick { node: 2, act: 1 },
    Pick { node: 0, act: 6 },
    Pick { node: 0, act: 9 },
];

/// What a root answers: what it is, and its set.
fn root_words(answer: Option<&Answer<SetOffer>>) -> (&'static str, u64) {
    match answer {
        None => ("none", 0),
        Some(answer) => answer_words(answer),
    }
}

fn run(alloc: Global, picks: &[Pick]) -> Result<Board<SetField>, AllocError> {
    let field = field(alloc, &AGREES)?;
    let picks = Items::from_slice(alloc, picks)?;
    run_picks(alloc, &field, 1, &picks)
}

/// The board of the picks, and its nodes in the order of their names.
fn tell_board(rt: &HostRuntime, picks: &[Pick]) -> io::Result<()> {
    let board = run(rt.alloc(), picks)?;
    let count = board.nodes().as_slice().len();
    let unlawful = board.unlawful();
    let (word, set) = root_words(board.answer());
    println!(rt; "board of {count}, unlawful {unlawful}, answer {word} {set:b}")?;
    tell_nodes(rt, board.into_nodes()?.as_slice())
}

/// Boards after no pick, after picks that are not lawful, and after a whole run.
pub(crate) fn tell_all(rt: &HostRuntime) -> io::Result<()> {
    tell_board(rt, &[])?;
    tell_board(rt, &TWICE)?;
    tell_board(rt, &BEYOND)?;
    tell_board(rt, &AGREEMENT)
}
