// Mirrors of a schedule's cores at moments: how many tenths of the text are over, and behind a point the core.
use crate::replays::journal_bytes;
use crate::rows::are_so;
use crate::schedules::text_of;
use crate::script::first;
use ksi_imprint::{Bytes, Compress, Imprint, Sha};
use ksi_journal::write;
use ksi_mirror::{Mirror, merge, whole, write_mirror};
use ksi_replay::{mirror_of, replay};
use ksi_schedule::read_schedule;
use std::alloc::Global;
use std::test::Fail;

/// The whole lines of the first so many tenths of a text.
pub(crate) fn front(text: &[u8], tenths: usize) -> &[u8] {
    if tenths >= 10 {
        return text;
    }
    let cut = &text[..text.len() / 10 * tenths];
    match cut.iter().rposition(|byte| *byte == b'\n') {
        Some(last) => &cut[..=last],
        None => text,
    }
}

/// The mirror of a core after the events of a text.
fn mirror_after(alloc: Global, text: &[u8], core: u8) -> Option<Mirror> {
    let schedule = read_schedule(alloc, text).ok()?;
    let world = replay::<Sha>(alloc, schedule).ok()?;
    if core < world.plan().cores() {
        mirror_of(alloc, &world, core).ok()
    } else {
        None
    }
}

fn mirror_at(alloc: Global, text: &[u8], moment: &str) -> Option<Mirror> {
    let (tenths, core) = moment.split_once('.')?;
    mirror_after(alloc, front(text, tenths.parse().ok()?), core.parse().ok()?)
}

/// A mirror, merged with that of another moment.
fn merged(alloc: Global, all: &Mirror, text: &[u8], moment: &str) -> Option<Mirror> {
    merge(alloc, all, &mirror_at(alloc, text, moment)?).ok()
}

/// The mirrors of these moments, merged one after the other.
fn gathered(alloc: Global, text: &[u8], moments: &str) -> Option<Mirror> {
    let (moment, others) = first(moments);
    let mut all = mirror_at(alloc, text, moment)?;
    for moment in others.split_whitespace() {
        all = merged(alloc, &all, text, moment)?;
    }
    Some(all)
}

/// Of the mirror of these moments the hash of its file, and of the journal that it makes the length, and whether it is the
/// beginning of the text's journal, but for its end.
pub(crate) fn told(alloc: Global, name: &str, moments: &str) -> Option<(Imprint, usize, bool)> {
    let text = text_of(alloc, name)?;
    let all = gathered(alloc, text.as_slice(), moments)?;
    let (size, is_front) = made(alloc, text.as_slice(), &all)?;
    Some((hash(alloc, &all)?, size, is_front))
}

fn hash(alloc: Global, all: &Mirror) -> Option<Imprint> {
    Some(Sha::of(write_mirror(alloc, all).ok()?.as_slice()))
}

fn journal_made(alloc: Global, all: &Mirror) -> Option<Bytes> {
    write(alloc, &whole::<Sha>(alloc, all).ok()?).ok()
}

fn made(alloc: Global, text: &[u8], all: &Mirror) -> Option<(usize, bool)> {
    let made = journal_made(alloc, all)?;
    let (seconds, _) = made.as_slice().split_last_chunk::<2>()?;
    let is_front = journal_bytes(alloc, text)?.as_slice().starts_with(seconds);
    Some((made.as_slice().len(), is_front))
}

// The hash is that of the file by hand, by another implementation of SHA-256: KSIMIRR1, the start 01046553f100, the root
// 022901046553f100022101 of the hash of no bytes, the list 090b01046553f1000200030101 of one item, which is 032201, that hash
// and 00, and the end 0600.
const DECIDED: &str =
    "mirror decided 10.0 = Some((Imprint { bytes: [1, 224, 34, 186, 160, 183, 244, 160, 39, 218, 110, 228, 61, 37, 8, 173, 103, 105, 125, 134, 2, 135, 170, 196, 160, 246, 220, 91, 51, 85, 230, 91, 80] }, 98, true))
mirror decided 10.0 10.0 = Some((Imprint { bytes: [1, 224, 34, 186, 160, 183, 244, 160, 39, 218, 110, 228, 61, 37, 8, 173, 103, 105, 125, 134, 2, 135, 170, 196, 160, 246, 220, 91, 51, 85, 230, 91, 80] }, 98, true))
mirror decided 6.0 10.0 9.0 = Some((Imprint { bytes: [1, 224, 34, 186, 160, 183, 244, 160, 39, 218, 110, 228, 61, 37, 8, 173, 103, 105, 125, 134, 2, 135, 170, 196, 160, 246, 220, 91, 51, 85, 230, 91, 80] }, 98, true))";

#[test]
fn the_mirror_of_a_core(rt: HostRuntime) -> Result<(), Fail> {
    are_so(&rt, rt.alloc(), DECIDED)
}

// In whatever order, they come to one file.
const SEVEN: &str =
    "mirror seven 10.0 10.1 10.2 = Some((Imprint { bytes: [1, 251, 241, 11, 56, 62, 120, 224, 49, 155, 253, 249, 217, 71, 6, 31, 174, 36, 160, 97, 170, 154, 208, 220, 255, 109, 105, 21, 161, 79, 132, 10, 189] }, 17641, true))
mirror seven 4.1 10.2 10.1 7.0 10.0 10.2 = Some((Imprint { bytes: [1, 251, 241, 11, 56, 62, 120, 224, 49, 155, 253, 249, 217, 71, 6, 31, 174, 36, 160, 97, 170, 154, 208, 220, 255, 109, 105, 21, 161, 79, 132, 10, 189] }, 17641, true))
mirror seven 10.1 1.2 10.0 5.0 10.2 = Some((Imprint { bytes: [1, 251, 241, 11, 56, 62, 120, 224, 49, 155, 253, 249, 217, 71, 6, 31, 174, 36, 160, 97, 170, 154, 208, 220, 255, 109, 105, 21, 161, 79, 132, 10, 189] }, 17641, true))";

#[test]
fn mirrors_of_seven_come_to_its_seconds(rt: HostRuntime) -> Result<(), Fail> {
    are_so(&rt, rt.alloc(), SEVEN)
}
