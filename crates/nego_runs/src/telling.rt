//! Histories as lines of text.

use crate::scene::Node;
use containers::Shared;
use nego_laws::sets::SetOffer;
use nego_node::answers::Answer;
use nego_node::events::{Event, Outcome};
use nego_node::tasks::{Side, Task};
use std::io;

/// An event as words and numbers: whose it is, a generation or the number of an item, what came of it, and a set.
#[derive(Clone, Copy)]
struct Line {
    word: &'static str,
    side: &'static str,
    number: u64,
    end: &'static str,
    set: u64,
}

fn side_name(side: Side) -> &'static str {
    match side {
        Side::Left => "left",
        Side::Right => "right",
    }
}

fn task_line(word: &'static str, side: &'static str, task: &Task<SetOffer>) -> Line {
    Line {
        word,
        side,
        number: task.generation,
        end: "given",
        set: task.given.get().set,
    }
}

fn outcome_line(number: u64, outcome: &Outcome<SetOffer>) -> Line {
    let (end, set) = match outcome {
        Outcome::None => ("none", 0),
        Outcome::Banned(offer) => ("banned", offer.get().set),
        Outcome::Offer(offer) => ("offer", offer.get().set),
    };
    Line {
        word: "tried",
        side: "item",
        number,
        end,
        set,
    }
}

/// An answer: what it is, and its set.
pub(crate) fn answer_words(answer: &Answer<SetOffer>) -> (&'static str, u64) {
    match answer {
        Answer::Proposal(proposal) => ("proposal", proposal.offer().get().set),
        Answer::Exhausted(_) => ("exhausted", 0),
    }
}

fn answer_line(side: Side, answer: &Answer<SetOffer>) -> Line {
    let (end, set) = answer_words(answer);
    Line {
        word: "posted",
        side: side_name(side),
        number: answer.task().get().generation,
        end,
        set,
    }
}

fn offer_line(word: &'static str, side: Side, number: u64, offer: &Shared<SetOffer>) -> Line {
    Line {
        word,
        side: side_name(side),
        number,
        end: "offer",
        set: offer.get().set,
    }
}

fn own_line(word: &'static str, side: &'static str, number: u64) -> Line {
    Line {
        word,
        side,
        number,
        end: "-",
        set: 0,
    }
}

fn line_of(event: &Event<SetOffer>) -> Line {
    match event {
        Event::Received(task) => task_line("received", "task", task.get()),
        Event::Tried(item, outcome) => outcome_line(*item, outcome),
        Event::Split => own_line("split", "-", 0),
        Event::Asked(side, task) => task_line("asked", side_name(*side), task.get()),
        Event::Posted(side, answer) => answer_line(*side, answer),
        Event::Adopted(side, number, offer) => offer_line("adopted", *side, *number, offer),
        Event::Agreed(side, number, offer) => offer_line("agreed", *side, *number, offer),
        Event::Forbidden(side, number, offer) => offer_line("forbidden", *side, *number, offer),
        Event::Refused(side, number) => own_line("refused", side_name(*side), *number),
        Event::Exhausted => own_line("exhausted", "-", 0),
    }
}

/// What an event's task bans.
fn banned_in(event: &Event<SetOffer>) -> &[Shared<SetOffer>] {
    match event {
        Event::Received(task) => task.get().ban.as_slice(),
        Event::Asked(_, task) => task.get().ban.as_slice(),
        _ => &[],
    }
}

fn tell_event(rt: &HostRuntime, event: &Event<SetOffer>) -> io::Result<()> {
    let line = line_of(event);
    print!(rt;
        "  {} {} {} {} {:b}",
        line.word, line.side, line.number, line.end, line.set
    )?;
    for offer in banned_in(event) {
        print!(rt; " not {:b}", offer.get().set)?;
    }
    println!(rt; "")
}

fn tell_history(rt: &HostRuntime, node: &Node) -> io::Result<()> {
    println!(rt; " node {}", node.node_name())?;
    for event in node.history().as_slice() {
        tell_event(rt, event)?;
    }
    Ok(())
}

/// The history of each node.
pub(crate) fn tell_nodes(rt: &HostRuntime, nodes: &[Node]) -> io::Result<()> {
    for node in nodes {
        tell_history(rt, node)?;
    }
    Ok(())
}
