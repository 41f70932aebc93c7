//! What nodes answer, send and issue, as words.
use crate::text::Text;
use ksi_aggtree::Item;
use ksi_aggtree::chains::Link;
use ksi_calendar::{CalendarLink, climb_calendar};
use ksi_imprint::{Imprint, Sha};
use ksi_signature::{Above, AboveChain, AggregationChain, Answer, read};
use ksi_split::Side;
use ksi_synod::{SynodMessage, Vote};
use std::alloc::Global;

fn word(answer: &Answer) -> &'static str {
    match answer {
        Answer::Done => "done",
        Answer::Number(_) => "number",
        Answer::Published(_) => "published",
        Answer::Late => "late",
        Answer::Known => "known",
        Answer::Full => "full",
        Answer::Unsealed => "unsealed",
        Answer::Sealed => "sealed",
        Answer::Closed => "closed",
        Answer::Undecided(_) => "undecided",
        Answer::NotMine => "not-mine",
        Answer::Nothing => "nothing",
        Answer::Last => "last",
    }
}

/// An answer, and its number or root.
pub(crate) fn put_answer(text: &mut Text, answer: &Answer) {
    text.word(word(answer));
    match answer {
        Answer::Number(number) | Answer::Undecided(number) => text.number("", *number),
        Answer::Published(root) => text.imprint(root),
        _ => {}
    }
}

/// An imprint, or a dash.
pub(crate) fn put_some(text: &mut Text, imprint: Option<Imprint>) {
    match &imprint {
        Some(imprint) => text.imprint(imprint),
        None => text.word("-"),
    }
}

/// A vote, or a dash.
pub(crate) fn put_vote(text: &mut Text, vote: &Option<Vote>) {
    match vote {
        Some(vote) => {
            text.number("in ", vote.ballot);
            text.imprint(&vote.imprint);
        }
        None => text.word("-"),
    }
}

/// A message of the vote.
pub(crate) fn put_synod(text: &mut Text, message: &SynodMessage) {
    match message {
        SynodMessage::NextBallot(ballot) => text.number("next ", *ballot),
        SynodMessage::LastVote(last) => {
            text.number("last ", last.ballot);
            put_vote(text, &last.vote);
        }
        SynodMessage::BeginBallot(ballot, decree) => {
            text.number("begin ", *ballot);
            text.imprint(decree);
        }
        SynodMessage::Voted(ballot) => text.number("voted ", *ballot),
        SynodMessage::Success(decree) => {
            text.word("success");
            text.imprint(decree);
        }
    }
}

/// An item: its imprint and its level, and its name.
pub(crate) fn put_item(text: &mut Text, item: &Item) {
    text.imprint(&item.imprint);
    text.number("", u64::from(item.level));
    if let Some(name) = &item.name {
        text.letters(name.as_bytes());
    }
}

/// Links: of each its side with its correction, and what it joins.
pub(crate) fn put_links(text: &mut Text, links: &[Link]) {
    for link in links {
        text.word(letter(link.side));
        text.number("", u64::from(link.correction));
        text.bytes(link.sibling.bytes());
    }
}

fn put_chain_above(text: &mut Text, chain: &AboveChain) {
    text.word("from");
    text.imprint(&chain.input);
    put_links(text, chain.links.as_slice());
}

fn letter(side: Side) -> &'static str {
    match side {
        Side::Left => "L",
        Side::Right => "R",
    }
}

/// The links of a calendar chain: the side of each, its first sibling, and where they lead.
fn put_calendar(text: &mut Text, root: Imprint, links: &[CalendarLink]) {
    text.word("calendar");
    for link in links {
        text.word(letter(link.side));
    }
    if let Some(first) = links.first() {
        text.imprint(&first.sibling);
    }
    text.imprint(&climb_calendar::<Sha>(root, links));
}

/// What stands above an item: the root, the chains that lead to it, and the calendar's chain.
pub(crate) fn put_above(text: &mut Text, above: &Above) {
    text.word("above");
    text.imprint(&above.root);
    for chain in above.chains.as_slice() {
        put_chain_above(text, chain);
    }
    put_calendar(text, above.root, above.calendar.as_slice());
}

/// A chain of a signature: its second, the parts of its index, its input and its links.
fn put_chain(text: &mut Text, chain: &AggregationChain) {
    text.number("at ", chain.time);
    for part in chain.index.as_slice() {
        text.number("", *part);
    }
    text.word("from");
    text.imprint(&chain.input);
    put_links(text, chain.links.as_slice());
}

/// The bytes of a signature: how many there are, and its chains.
pub(crate) fn put_signature(text: &mut Text, alloc: Global, bytes: &[u8]) {
    text.number("bytes ", bytes.len() as u64);
    if let Ok(signature) = read(alloc, bytes) {
        for chain in signature.chains.as_slice() {
            put_chain(text, chain);
        }
    }
}
