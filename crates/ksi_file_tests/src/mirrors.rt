// Mirrors: their first faults, what is written of them, and the journals that they make.
use crate::journal_faults::coded;
use crate::same::same;
use crate::text::{bytes, push_words, reason};
use ksi_imprint::{Bytes, Sha};
use ksi_journal::{Journal, write};
use ksi_mirror::{Mirror, load_mirror, whole, write_mirror};
use std::alloc::Global;
use std::test::Fail;

/// The magic, and what these words stand for behind it.
fn file(alloc: Global, words: &str) -> Result<Vec<u8>, Fail> {
    let mut text = b"KSIMIRR1".to_vec(alloc)?;
    push_words(alloc, &mut text, words)?;
    Ok(text)
}

/// The mirror of words that have no fault.
pub(crate) fn mirror_of(alloc: Global, words: &str) -> Result<Mirror, Fail> {
    match load_mirror(alloc, file(alloc, words)?.as_slice()) {
        Ok(mirror) => Ok(mirror),
        Err(_) => Err(Fail::from("it does not load")),
    }
}

/// What one core holds and has sealed: a root of one item.
pub(crate) const ONE: &str =
    "01046553f100 0229 01046553f100 0221 A 090b 01046553f100 0200 030101 0322 A 00 0600";

/// The number of the code of the fault of bytes, and the place or the second; zeros where they have none.
fn told(alloc: Global, bytes: &[u8]) -> (u8, u64) {
    coded(reason(load_mirror(alloc, bytes).err()))
}

/// The bytes of the mirror of words that have no fault.
pub(crate) fn written(alloc: Global, words: &str) -> Result<Bytes, Fail> {
    let mirror = mirror_of(alloc, words)?;
    Ok(write_mirror(alloc, &mirror)?)
}

/// Whether the file of these words comes back when it is loaded and written, and how many bytes it has.
fn comes_back(alloc: Global, words: &str) -> Result<(bool, usize), Fail> {
    let written = written(alloc, words)?;
    let text = file(alloc, words)?;
    Ok((written.as_slice() == text.as_slice(), text.len()))
}

#[test]
fn what_is_written_is_loaded(rt: HostRuntime) -> Result<(), Fail> {
    static ROWS: [(&str, usize); 4] = [
        (ONE, 108),
        ("010105 0600", 13),
        ("0100 0226 0101ff 0221 zero 0600", 52),
        (
            "010105 0909 010105 020108 030102 0322 A 00 0723 B 07 61 0909 010106 020101 030101 0322 A 01 0600",
            144,
        ),
    ];
    for (words, size) in &ROWS {
        same(&rt, *words, comes_back(rt.alloc(), words)?, (true, *size));
    }
    Ok(())
}

/// Whether the bytes of a journal are what these words stand for.
fn is_written(alloc: Global, journal: &Journal<Sha>, words: &str) -> Result<bool, Fail> {
    let text = write(alloc, journal)?;
    let want = bytes(alloc, words)?;
    Ok(text.as_slice() == want.as_slice())
}

/// Whether a mirror makes the journal of these words, or is refused where there are none.
fn makes(alloc: Global, mirror: &Mirror, want: &str) -> Result<bool, Fail> {
    match whole::<Sha>(alloc, mirror) {
        Ok(journal) => is_written(alloc, &journal, want),
        Err(_) => Ok(want.is_empty()),
    }
}

#[test]
fn the_journal_of_a_mirror(rt: HostRuntime) -> Result<(), Fail> {
    static ROWS: [(&str, &str); 3] = [
        (
            ONE,
            "4b53494a524e4c31 01046553f100 022c 01046553f100 0221 A 030101 0322 A 00 0600",
        ),
        (
            "010105 0229 01046553f100 0221 zero 0600",
            "4b53494a524e4c31 010105 022b 01046553f100 0221 zero 0300 0600",
        ),
        (
            "010105 0226 010105 0221 B 0908 010105 0200 030101 0322 A 00 0600",
            "",
        ),
    ];
    for (words, want) in &ROWS {
        let mirror = mirror_of(rt.alloc(), words)?;
        same(&rt, *words, makes(rt.alloc(), &mirror, want)?, true);
    }
    Ok(())
}

/// Worked out by hand: the code of the first fault, from J1 on, and its place or second. What follows the start stands at 11.
#[test]
fn answers_the_first_fault(rt: HostRuntime) -> Result<(), Fail> {
    static CASES: [(&str, (u8, u64)); 22] = [
        ("", (8, 8)),
        ("0600", (3, 8)),
        ("0109 000000000000000005", (5, 8)),
        ("010105", (8, 11)),
        ("010105 0400", (3, 11)),
        ("010105 0800", (3, 11)),
        ("010105 0322 A 00", (3, 11)),
        ("010105 0205 010105", (2, 11)),
        ("010105 0203 010104", (3, 13)),
        ("010105 0203 010105", (8, 16)),
        ("010105 0206 010105 020101", (6, 16)),
        ("010105 0226 010105 0221 A 0226 010105 0221 A", (3, 53)),
        ("010105 0226 010105 0221 A 0601 00", (8, 51)),
        ("010105 0903 010104", (3, 13)),
        ("010105 0906 010105 020109", (5, 16)),
        ("010105 0908 010105 020108 0300", (7, 5)),
        ("010105 090b 010105 020108 0303010001", (7, 5)),
        ("010105 0909 010105 020108 030101 0600", (3, 22)),
        (
            "010105 0909 010105 020108 030101 0322 A 00 0909 010105 020108 030101",
            (3, 63),
        ),
        ("010105 0909 010105 020108 030101 0322 A f0", (5, 22)),
        ("010105 0909 010105 020108 030101 0723 A 00 2f", (9, 22)),
        (
            "010105 0909 010105 020108 030101 0322 A 00 0226 010105 0221 A",
            (3, 58),
        ),
    ];
    for (words, fault) in &CASES {
        let bytes = file(rt.alloc(), words)?;
        same(&rt, *words, told(rt.alloc(), bytes.as_slice()), *fault);
    }
    Ok(())
}

#[test]
fn another_magic_is_none(rt: HostRuntime) -> Result<(), Fail> {
    static CASES: [&[u8]; 3] = [b"", b"KSIMIRR", b"KSIJRNL1"];
    for bytes in &CASES {
        same(&rt, "magic", told(rt.alloc(), *bytes), (1, 0));
    }
    Ok(())
}
