//! The words of events.

ghost use Rattle.std.specs.Prelude.{◌≡◌, ◌++◌, codes, OnOk};
ghost use Rattle.std.specs.List.{flat_map};
ghost use Rattle.fol_core.specs.Spelling.{IsGrown};
ghost use Rattle.history_text.specs.Words.{side_word, part_words, decision_words, offers_text, task_words};
ghost use Rattle.history_text.specs.Words.{outcome_words, answer_words, event_words};

use crate::spelling::OfferSpelling;
use containers::Shared;
use nego_node::answers::Answer;
use nego_node::events::{Event, Outcome};
use nego_node::tasks::{Side, Task};
use offer_text::spell_number;
use std::alloc::AllocError;

fn side_word(side: Side) -> &'static [u8]
    ensures { result.now ≡ side_word side }
{
    match side {
        Side::Left => b"left",
        Side::Right => b"right",
    }
}

/// Appends the verb, and which task of which part it is about.
#[tactic(auto, using(fol_core::proofs::Grown::growing))]
fn append_part(
    verb: &[u8],
    side: Side,
    generation: u64,
    out: &mut Vec<u8>,
) -> Result<(), AllocError>
    ensures ok { OnOk result (out.new.items ≡ out.old.items ++ (verb.now ++ part_words side generation)) }
    ensures grows { IsGrown out.old.items out.new.items }
{
    out.extend_from_slice(verb)?;
    out.extend_from_slice(side_word(side))?;
    spell_number(b" ", generation, out)
}

/// Appends the word and the offer.
#[tactic(auto, using(fol_core::proofs::Grown::growing))]
fn append_offer<S: OfferSpelling>(
    word: &[u8],
    spelling: &S,
    offer: &S::Offer,
    out: &mut Vec<u8>,
) -> Result<(), AllocError>
    ensures ok { OnOk result (out.new.items ≡ out.old.items ++ (word.now ++ S.text spelling.now offer.now)) }
    ensures grows { IsGrown out.old.items out.new.items }
{
    out.extend_from_slice(word)?;
    spelling.spell(offer, out)
}

/// Appends the offers, each behind a comma.
#[tactic(auto, using(fol_core::proofs::Grown::growing))]
fn append_more<S: OfferSpelling>(
    spelling: &S,
    offers: &[Shared<S::Offer>],
    out: &mut Vec<u8>,
) -> Result<(), AllocError>
    ensures ok { OnOk result (out.new.items
        ≡ out.old.items ++ flat_map (λ s. codes "," ++ S.text spelling.now s) offers.now) }
    ensures grows { IsGrown out.old.items out.new.items }
{
    for offer in offers {
        append_offer(b",", spelling, offer.get(), out)?;
    }
    Ok(())
}

/// Appends the offers in brackets, with a comma between each two.
#[tactic(auto, using(fol_core::proofs::Grown::growing))]
fn append_offers<S: OfferSpelling>(
    spelling: &S,
    offers: &[Shared<S::Offer>],
    out: &mut Vec<u8>,
) -> Result<(), AllocError>
    ensures ok { OnOk result (out.new.items ≡ out.old.items ++ offers_text (S.text spelling.now) offers.now) }
    ensures grows { IsGrown out.old.items out.new.items }
{
    match offers {
        [] => out.extend_from_slice(b"[]"),
        [first, more @ ..] => {
            append_offer(b"[", spelling, first.get(), out)?;
            append_more(spelling, more, out)?;
            out.push(b']')?;
            Ok(())
        }
    }
}

/// Appends the word and the task: its generation, what is given and what is banned.
#[tactic(auto, using(fol_core::proofs::Grown::growing))]
fn append_task<S: OfferSpelling>(
    word: &[u8],
    spelling: &S,
    task: &Task<S::Offer>,
    out: &mut Vec<u8>,
) -> Result<(), AllocError>
    ensures ok { OnOk result (out.new.items
        ≡ out.old.items ++ (word.now ++ task_words (S.text spelling.now) task.now)) }
    ensures grows { IsGrown out.old.items out.new.items }
{
    spell_number(word, task.generation, out)?;
    append_offer(b" given ", spelling, task.given.get(), out)?;
    out.extend_from_slice(b" ban ")?;
    append_offers(spelling, task.ban.as_slice(), out)
}

/// Appends how an attempt ended.
#[tactic(auto, using(fol_core::proofs::Grown::growing))]
fn append_outcome<S: OfferSpelling>(
    spelling: &S,
    outcome: &Outcome<S::Offer>,
    out: &mut Vec<u8>,
) -> Result<(), AllocError>
    ensures ok { OnOk result (out.new.items ≡ out.old.items ++ outcome_words (S.text spelling.now) outcome.now) }
    ensures grows { IsGrown out.old.items out.new.items }
{
    match outcome {
        Outcome::None => out.extend_from_slice(b" none"),
        Outcome::Banned(offer) => append_offer(b" banned ", spelling, offer.get(), out),
        Outcome::Offer(offer) => append_offer(b" offer ", spelling, offer.get(), out),
    }
}

/// Appends a part's answer, and to which of its tasks it is one.
#[tactic(auto, using(fol_core::proofs::Grown::growing))]
fn append_answer<S: OfferSpelling>(
    spelling: &S,
    side: Side,
    answer: &Answer<S::Offer>,
    out: &mut Vec<u8>,
) -> Result<(), AllocError>
    ensures ok { OnOk result (out.new.items ≡ out.old.items ++ answer_words (S.text spelling.now) side answer.now) }
    ensures grows { IsGrown out.old.items out.new.items }
{
    append_part(b"posted ", side, answer.task().get().generation, out)?;
    match answer {
        Answer::Proposal(proposal) => append_offer(
            b" proposal ",
            spelling,
            proposal.offer().get(),
            out,
        ),
        Answer::Exhausted(_) => out.extend_from_slice(b" exhausted"),
    }
}

/// Appends the verb, which task of which part it is about, and the offer.
#[tactic(auto, using(fol_core::proofs::Grown::growing))]
fn append_decision<S: OfferSpelling>(
    verb: &[u8],
    spelling: &S,
    side: Side,
    generation: u64,
    offer: &S::Offer,
    out: &mut Vec<u8>,
) -> Result<(), AllocError>
    ensures ok { OnOk result (out.new.items ≡ out.old.items
        ++ decision_words (S.text spelling.now) verb.now side generation offer.now) }
    ensures grows { IsGrown out.old.items out.new.items }
{
    append_part(verb, side, generation, out)?;
    append_offer(b" ", spelling, offer, out)
}

/// Appends the words of the event.
#[tactic(auto, using(fol_core::proofs::Grown::growing))]
pub(crate) fn append_event<S: OfferSpelling>(
    spelling: &S,
    event: &Event<S::Offer>,
    out: &mut Vec<u8>,
) -> Result<(), AllocError>
    ensures ok { OnOk result (out.new.items ≡ out.old.items ++ event_words (S.text spelling.now) event.now) }
    ensures grows { IsGrown out.old.items out.new.items }
{
    match event {
        Event::Received(task) => append_task(b"received ", spelling, task.get(), out),
        Event::Tried(item, outcome) => {
            spell_number(b"tried ", *item, out)?;
            append_outcome(spelling, outcome, out)
        }
        Event::Split => out.extend_from_slice(b"split"),
        Event::Asked(side, task) => {
            out.extend_from_slice(b"asked ")?;
            out.extend_from_slice(side_word(*side))?;
            append_task(b" ", spelling, task.get(), out)
        }
        Event::Posted(side, answer) => append_answer(spelling, *side, answer, out),
        Event::Adopted(side, generation, offer) => {
            append_decision(b"adopted ", spelling, *side, *generation, offer.get(), out)
        }
        Event::Agreed(side, generation, offer) => {
            append_decision(b"agreed ", spelling, *side, *generation, offer.get(), out)
        }
        Event::Forbidden(side, generation, offer) => {
            append_decision(
                b"forbidden ",
                spelling,
                *side,
                *generation,
                offer.get(),
                out,
            )
        }
        Event::Refused(side, generation) => append_part(b"refused ", *side, *generation, out),
        Event::Exhausted => out.extend_from_slice(b"exhausted"),
    }
}
