use crate::rows::are_so;
use crate::schedules::text_of;
use ksi_imprint::{Bytes, Sha};
use ksi_journal::{Journal, load, write};
use ksi_replay::{journal_of, replay};
use ksi_schedule::read_schedule;
use std::alloc::Global;
use std::test::Fail;

fn replayed(alloc: Global, text: &[u8]) -> Option<Journal<Sha>> {
    let schedule = read_schedule(alloc, text).ok()?;
    let world = replay(alloc, schedule).ok()?;
    journal_of(alloc, &world).ok()
}

/// The bytes of the journal of a schedule's text.
pub(crate) fn journal_bytes(alloc: Global, text: &[u8]) -> Option<Bytes> {
    write(alloc, &replayed(alloc, text)?).ok()
}

fn named_bytes(alloc: Global, name: &str) -> Option<Bytes> {
    journal_bytes(alloc, text_of(alloc, name)?.as_slice())
}

/// How many bytes the journal has, and how many kept seconds, signatures and publications are read again from them.
pub(crate) fn counts(alloc: Global, name: &str) -> Option<[usize; 4]> {
    let bytes = named_bytes(alloc, name)?;
    let journal = load::<Sha>(alloc, bytes.as_slice()).ok()?;
    Some([
        bytes.as_slice().len(),
        journal.seconds().len(),
        journal.issued().len(),
        journal.publications().len(),
    ])
}

const JOURNALS: &str = "journal idle = Some([16, 0, 0, 0])
journal missed = Some([61, 1, 0, 0])
journal open = Some([16, 0, 0, 0])
journal one_votes = Some([72, 1, 0, 0])
journal signed = Some([766, 1, 1, 1])
journal named = Some([783, 1, 1, 1])";

#[test]
fn schedules_become_journals(rt: HostRuntime) -> Result<(), Fail> {
    are_so(&rt, rt.alloc(), JOURNALS)
}

// The start of a journal of version 2, and behind it the voters of its first second: core 1.
static VOTERS: &[u8] =
    b"KSIJRNL2\x01\x04\x65\x53\xf1\x00\x08\x09\x01\x04\x65\x53\xf1\x00\x02\x01\x02";

pub(crate) fn is_with_voters(alloc: Global, name: &str) -> Option<bool> {
    Some(named_bytes(alloc, name)?.as_slice().starts_with(VOTERS))
}

#[test]
fn who_votes_stands_behind_the_start(rt: HostRuntime) -> Result<(), Fail> {
    are_so(&rt, rt.alloc(), "voters one_votes = Some(true)")
}
