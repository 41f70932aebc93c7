// Schedules as rows of text, and what comes of them.
use crate::same::same;
use crate::text::{is_refused, sides};
use ksi_schedule::{NoMemory, Schedule, print, read_schedule};
use std::alloc::Global;
use std::process::Abort;
use std::slice;
use std::test::Fail;

const DIGITS: &str = "e3b0c44298fc1c149afbf4c8996fb92427ae41e4649b934ca495991b7852b855";

const CAPITALS: &str = "E3B0C44298FC1C149AFBF4C8996FB92427AE41E4649B934CA495991B7852B855";

const LONGEST: &str = "abcdefghijklmnopqrstuvwxyzABCDEFGHIJKLMNOPQRSTUVWXYZ0123456789._";

/// What a sign of a text stands for, each other byte standing for itself: a line feed, 64 hex digits, the same as capitals, a
/// name of 64 letters, and a byte that is no text.
fn spelled(byte: &u8) -> &[u8] {
    match byte {
        b'|' => b"\n",
        b'#' => DIGITS.as_bytes(),
        b'^' => CAPITALS.as_bytes(),
        b'*' => LONGEST.as_bytes(),
        b'~' => b"\xff",
        _ => slice::from_ref(byte),
    }
}

fn spell(whole: &mut Vec<u8>, text: &str) -> Result<(), NoMemory> {
    for byte in text.as_bytes() {
        whole.extend_from_slice(spelled(byte))?;
    }
    Ok(())
}

/// Lines behind those of a header.
pub(crate) fn spelled_behind(
    alloc: Global,
    header: &str,
    lines: &str,
) -> Result<Vec<u8>, NoMemory> {
    let mut whole = Vec::new(alloc);
    spell(&mut whole, header)?;
    spell(&mut whole, lines)?;
    Ok(whole)
}

pub(crate) fn schedule_of(alloc: Global, text: &str) -> Result<Schedule, Fail> {
    let text = spelled_behind(alloc, text, "")?;
    match read_schedule(alloc, text.as_slice()) {
        Ok(schedule) => Ok(schedule),
        Err(_) => Err(Fail::from("not read")),
    }
}

/// A text is that of the lines on the right side of a row behind those of a header.
fn is_text(
    rt: &impl Abort,
    alloc: Global,
    header: &str,
    row: &str,
    text: &[u8],
) -> Result<(), Fail> {
    let want = spelled_behind(alloc, header, sides(row).1)?;
    same(rt, row, text, want.as_slice());
    Ok(())
}

/// A schedule is printed so.
fn is_printed(
    rt: &impl Abort,
    alloc: Global,
    header: &str,
    row: &str,
    schedule: &Schedule,
) -> Result<(), Fail> {
    let printed = print(alloc, schedule)?;
    is_text(rt, alloc, header, row, printed.as_slice())
}

/// The lines on the left side of a row, behind those of a header, are printed as those on its right side, or have that fault.
fn is_read(rt: &impl Abort, alloc: Global, header: &str, row: &str) -> Result<(), Fail> {
    let text = spelled_behind(alloc, header, sides(row).0)?;
    match read_schedule(alloc, text.as_slice()) {
        Ok(schedule) => is_printed(rt, alloc, header, row, &schedule),
        Err(refused) => is_refused(rt, alloc, row, Some(refused)),
    }
}

pub(crate) fn are_read(
    rt: &impl Abort,
    alloc: Global,
    header: &str,
    rows: &str,
) -> Result<(), Fail> {
    for row in rows.lines() {
        is_read(rt, alloc, header, row)?;
    }
    Ok(())
}
