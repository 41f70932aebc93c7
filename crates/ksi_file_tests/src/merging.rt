// Mirrors, merged or refused.
use crate::mirrors::{ONE, mirror_of, written};
use crate::same::same;
use crate::text::{is_so, sides};
use ksi_imprint::Bytes;
use ksi_mirror::{MergeRefusal, Mirror, Refused, merge, write_mirror};
use std::alloc::Global;
use std::process::Abort;
use std::test::Fail;

fn merged(alloc: Global, one: &Mirror, two: &Mirror) -> Result<Mirror, Fail> {
    match merge(alloc, one, two) {
        Ok(mirror) => Ok(mirror),
        Err(_) => Err(Fail::from("they are not merged")),
    }
}

fn pair(alloc: Global, one: &str, two: &str) -> Result<Mirror, Fail> {
    let one = mirror_of(alloc, one)?;
    let two = mirror_of(alloc, two)?;
    merged(alloc, &one, &two)
}

/// The bytes of two mirrors that are merged.
fn union(alloc: Global, one: &Mirror, two: &Mirror) -> Result<Bytes, Fail> {
    let merged = merged(alloc, one, two)?;
    Ok(write_mirror(alloc, &merged)?)
}

/// The bytes of three mirrors, the last of which is merged behind the first two.
fn left(alloc: Global, words: &[&str; 3]) -> Result<Bytes, Fail> {
    let pair = pair(alloc, words[0], words[1])?;
    let three = mirror_of(alloc, words[2])?;
    union(alloc, &pair, &three)
}

/// The bytes of three mirrors, the first of which is merged before the last two.
fn right(alloc: Global, words: &[&str; 3]) -> Result<Bytes, Fail> {
    let one = mirror_of(alloc, words[0])?;
    let pair = pair(alloc, words[1], words[2])?;
    union(alloc, &one, &pair)
}

/// Whether these bytes are a mirror's.
fn is_mirror(alloc: Global, text: &Bytes, words: &str) -> Result<bool, Fail> {
    let wanted = written(alloc, words)?;
    Ok(wanted.as_slice() == text.as_slice())
}

/// Whether three mirrors give this one when they are merged with the last of them behind.
fn give_left(alloc: Global, words: &[&str; 3], want: &str) -> Result<bool, Fail> {
    let text = left(alloc, words)?;
    is_mirror(alloc, &text, want)
}

/// The same with the first of them before.
fn give_right(alloc: Global, words: &[&str; 3], want: &str) -> Result<bool, Fail> {
    let text = right(alloc, words)?;
    is_mirror(alloc, &text, want)
}

/// Whether they give this one either way.
fn give(alloc: Global, words: &[&str; 3], want: &str) -> Result<[bool; 2], Fail> {
    Ok([
        give_left(alloc, words, want)?,
        give_right(alloc, words, want)?,
    ])
}

#[test]
fn three_are_merged_in_every_order(rt: HostRuntime) -> Result<(), Fail> {
    const A: &str = "010105 0226 010105 0221 A 0908 010105 0200 030101 0322 A 00 0600";
    const B: &str = "010105 0226 010107 0221 B 0909 010105 020102 030101 0322 B 00 0600";
    const C: &str = "010105 0226 010106 0221 zero 0908 010105 0200 030101 0322 A 00 0600";
    const ALL: &str =
        "010105 0226 010105 0221 A 0226 010106 0221 zero 0226 010107 0221 B 0908 010105 0200 030101 0322 A 00 0909 010105 020102 030101 0322 B 00 0600";
    static ROWS: [[&str; 3]; 6] = [
        [A, B, C],
        [A, C, B],
        [B, A, C],
        [B, C, A],
        [C, A, B],
        [C, B, A],
    ];
    for words in &ROWS {
        same(&rt, "merged", give(rt.alloc(), words, ALL)?, [true; 2]);
    }
    same(&rt, "once", give(rt.alloc(), &[ONE; 3], ONE)?, [true; 2]);
    Ok(())
}

/// The refusal of two mirrors, if they are not merged.
fn refusal_of(alloc: Global, one: &str, two: &str) -> Result<Option<MergeRefusal>, Fail> {
    let one = mirror_of(alloc, one)?;
    let two = mirror_of(alloc, two)?;
    match merge(alloc, &one, &two) {
        Err(Refused::Fault(refusal)) => Ok(Some(refusal)),
        _ => Ok(None),
    }
}

/// Two mirrors, with a semicolon between, and their refusal.
const DIFFER: &str =
    "01046553f100 0229 01046553f100 0221 A 090b 01046553f100 0200 030101 0322 A 00 0600;01046553f100 0229 01046553f100 0221 B 090b 01046553f100 0200 030101 0322 B 00 0600 = Some(Conflict(1700000000, Imprint { bytes: [1, 227, 176, 196, 66, 152, 252, 28, 20, 154, 251, 244, 200, 153, 111, 185, 36, 39, 174, 65, 228, 100, 155, 147, 76, 164, 149, 153, 27, 120, 82, 184, 85] }, Imprint { bytes: [1, 186, 120, 22, 191, 143, 1, 207, 234, 65, 65, 64, 222, 93, 174, 34, 35, 176, 3, 97, 163, 150, 23, 122, 156, 180, 16, 255, 97, 242, 0, 21, 173] }))
010106 0600;010105 0226 010107 0221 A 0908 010106 0200 030102 0322 A 00 0322 A 00 0909 010106 020101 030101 0322 A 00 0600 = Some(Starts(6, 5))
010105 0226 010107 0221 A 0908 010106 0200 030102 0322 A 00 0322 A 00 0909 010106 020101 030101 0322 A 00 0600;010105 0226 010107 0221 zero 0600 = Some(Conflict(7, Imprint { bytes: [1, 227, 176, 196, 66, 152, 252, 28, 20, 154, 251, 244, 200, 153, 111, 185, 36, 39, 174, 65, 228, 100, 155, 147, 76, 164, 149, 153, 27, 120, 82, 184, 85] }, Imprint { bytes: [1, 0, 0, 0, 0, 0, 0, 0, 0, 0, 0, 0, 0, 0, 0, 0, 0, 0, 0, 0, 0, 0, 0, 0, 0, 0, 0, 0, 0, 0, 0, 0, 0] }))
010105 0226 010107 0221 A 0908 010106 0200 030102 0322 A 00 0322 A 00 0909 010106 020101 030101 0322 A 00 0600;010105 0226 010107 0221 zero 0908 010106 0200 030102 0322 A 00 0322 A 01 0600 = Some(Trees(6, 0, 1))
010105 0908 010106 0200 030101 0322 A 00 0600;010105 0226 010107 0221 A 0908 010106 0200 030102 0322 A 00 0322 A 00 0909 010106 020101 030101 0322 A 00 0600 = Some(Trees(6, 0, 1))
010105 0226 010107 0221 A 0908 010106 0200 030102 0322 A 00 0322 A 00 0909 010106 020101 030101 0322 A 00 0600;010105 0909 010106 020101 030101 0322 B 00 0600 = Some(Trees(6, 1, 0))";

fn differ(rt: &impl Abort, alloc: Global, row: &str) -> Result<(), Fail> {
    let (one, two) = sides(row).0.split_once(';').unwrap_or((row, ""));
    is_so(rt, alloc, row, refusal_of(alloc, one, two)?)
}

#[test]
fn two_mirrors_that_differ(rt: HostRuntime) -> Result<(), Fail> {
    for row in DIFFER.lines() {
        differ(&rt, rt.alloc(), row)?;
    }
    Ok(())
}
