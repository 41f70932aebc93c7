//! What a core says, sends and stores at a call, as words.
use crate::entries::put_origin;
use crate::printed::{put_above, put_answer, put_item, put_synod, put_vote};
use crate::text::Text;
use ksi_aggtree::Entry;
use ksi_corenode::{NoMemory, Send, Step, What};
use std::alloc::Global;

/// Items and where they came from.
pub(crate) fn put_entries(text: &mut Text, entries: &[Entry]) {
    for entry in entries {
        put_origin(text, entry.origin);
        put_item(text, &entry.item);
    }
}

fn put_what(text: &mut Text, what: &What) {
    match what {
        What::Sealed(items) => put_entries(text, items.as_slice()),
        What::Tried(ballot) => text.number("tried ", *ballot),
        What::Promised(ballot) => text.number("promised ", *ballot),
        What::Cast(vote) => put_vote(text, &Some(*vote)),
        What::Holds(root) => text.imprint(root),
    }
}

fn put_send(text: &mut Text, send: &Send) {
    match send {
        Send::Synod(core, message) => {
            text.number("/ c", u64::from(*core));
            put_synod(text, message);
        }
        Send::Response(aggregator, above) => {
            text.number("/ a", u64::from(*aggregator));
            put_above(text, above);
        }
    }
}

/// What is said and sent.
pub(crate) fn put_said(text: &mut Text, step: &Step) {
    put_answer(text, &step.answer);
    for send in step.sends.as_slice() {
        put_send(text, send);
    }
}

/// What is said, sent and stored; nothing where memory is wanting.
pub(crate) fn put_step(text: &mut Text, step: &Result<Step, NoMemory>) {
    let Ok(step) = step else {
        return;
    };
    put_said(text, step);
    if let Some(fact) = &step.fact {
        text.number("stores ", fact.second);
        put_what(text, &fact.what);
    }
    text.end();
}

/// Whether both say, send and store the same.
pub(crate) fn are_alike(
    alloc: Global,
    one: &Result<Step, NoMemory>,
    other: &Result<Step, NoMemory>,
) -> bool {
    let mut told = Text::new(alloc);
    let mut want = Text::new(alloc);
    put_step(&mut told, one);
    put_step(&mut want, other);
    !told.as_str().is_empty() && told.as_str() == want.as_str()
}
