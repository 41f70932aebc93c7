// Scripts: rows that hold files in memory, run words over them and say what comes of it.
use crate::same::same;
use ksi_ports::{MemFiles, MemSink};
use ksi_top::{Status, ksi};
use std::alloc::Global;
use std::process::Abort;
use std::test::Fail;

/// What a word stands for: the SHA-256 of no bytes and that of "abc", 32 zero bytes, a second, the aggregation chain and the
/// calendar chain of a signature of A at second 0, and a left link beside A.
static NAMES: [(&str, &str); 7] = [
    (
        "A",
        "e3b0c44298fc1c149afbf4c8996fb92427ae41e4649b934ca495991b7852b855",
    ),
    (
        "B",
        "ba7816bf8f01cfea414140de5dae2223b00361a396177a9cb410ff61f20015ad",
    ),
    (
        "Z",
        "0000000000000000000000000000000000000000000000000000000000000000",
    ),
    ("T", "1700000000"),
    (
        "G",
        "8801002b0200030101052101e3b0c44298fc1c149afbf4c8996fb92427ae41e4649b934ca495991b7852b855060101",
    ),
    (
        "K",
        "8802002701000200052101e3b0c44298fc1c149afbf4c8996fb92427ae41e4649b934ca495991b7852b855",
    ),
    (
        "link",
        "0723022101e3b0c44298fc1c149afbf4c8996fb92427ae41e4649b934ca495991b7852b855",
    ),
];

pub(crate) fn meant(word: &str) -> &str {
    for (name, text) in &NAMES {
        if *name == word {
            return *text;
        }
    }
    word
}

/// The first word of a row and what follows it.
pub(crate) fn first(row: &str) -> (&str, &str) {
    row.split_once(" ").unwrap_or((row, ""))
}

/// What stands on both sides of a row's equals sign.
pub(crate) fn sides(row: &str) -> (&str, &str) {
    row.split_once(" = ").unwrap_or((row, ""))
}

fn push_times(alloc: Global, bytes: &mut Vec<u8>, word: &str, times: usize) -> Result<(), Fail> {
    let piece = hex::decode(alloc, meant(word))?;
    for _ in 0..times {
        bytes.extend_from_slice(&piece)?;
    }
    Ok(())
}

/// The bytes from one place to another, none where they do not stand.
fn part(bytes: &[u8], from: usize, to: usize) -> &[u8] {
    bytes.get(from..to).unwrap_or(b"")
}

fn push_part(bytes: &mut Vec<u8>, held: &[u8], places: &str) -> Result<(), Fail> {
    match places.split_once("-") {
        Some((from, to)) => bytes.extend_from_slice(part(held, from.parse()?, to.parse()?))?,
        None => bytes.extend_from_slice(held)?,
    }
    Ok(())
}

/// A piece is hex or a name, behind a number and an `x` so often; or it is a held file's name, a colon and the places from
/// which and up to which its bytes are taken, where these are not all.
fn push_piece(
    alloc: Global,
    files: &MemFiles,
    bytes: &mut Vec<u8>,
    piece: &str,
) -> Result<(), Fail> {
    if let Some((name, places)) = piece.split_once(":") {
        return push_part(bytes, files.bytes(name).unwrap_or(b""), places);
    }
    match piece.split_once("x") {
        Some((times, word)) => push_times(alloc, bytes, word, times.parse()?),
        None => push_times(alloc, bytes, piece, 1),
    }
}

fn content(alloc: Global, files: &MemFiles, pieces: &str) -> Result<Vec<u8>, Fail> {
    let mut bytes = Vec::new(alloc);
    for piece in pieces.split_whitespace() {
        push_piece(alloc, files, &mut bytes, piece)?;
    }
    Ok(bytes)
}

/// `hold NAME PIECES`: the file of these pieces.
fn hold(alloc: Global, files: &mut MemFiles, row: &str) -> Result<(), Fail> {
    let (name, pieces) = first(row);
    let bytes = content(alloc, files, pieces)?;
    Ok(files.hold(name, &bytes)?)
}

/// `text NAME TEXT`: the file of a text in which `|` stands for a line feed.
fn hold_text(alloc: Global, files: &mut MemFiles, row: &str) -> Result<(), Fail> {
    let (name, text) = first(row);
    let mut lines = String::new(alloc);
    for letter in text.chars() {
        lines.push(if letter == '|' { '\n' } else { letter })?;
    }
    Ok(files.hold(name, lines.as_bytes())?)
}

/// `holds NAME SIZE PIECES`: the file has so many bytes and begins with these pieces.
fn holds(rt: &impl Abort, alloc: Global, files: &MemFiles, row: &str) -> Result<(), Fail> {
    let (name, rest) = first(row);
    let (size, pieces) = first(rest);
    let front = content(alloc, files, pieces)?;
    let held = files.bytes(name).unwrap_or(b"");
    same(rt, row, held.len(), size.parse()?);
    same(rt, row, held.starts_with(&front), true);
    Ok(())
}

/// `same NAME NAME`: both files are the same, or neither is held.
fn are_same(rt: &impl Abort, files: &MemFiles, row: &str) -> Result<(), Fail> {
    let (one, other) = first(row);
    same(rt, row, files.bytes(one), files.bytes(other));
    Ok(())
}

/// The words of a line.
pub(crate) fn words(alloc: Global, line: &str) -> Result<Vec<String>, Fail> {
    let mut words = Vec::new(alloc);
    for word in line.split_whitespace() {
        words.push(String::from_str(alloc, meant(word))?)?;
    }
    Ok(words)
}

pub(crate) fn name_of(status: Status) -> &'static str {
    match status {
        Status::Done => "Done",
        Status::Refused => "Refused",
        Status::Words => "Words",
        Status::Malformed => "Malformed",
        Status::Fault => "Fault",
        Status::NoMemory => "NoMemory",
        Status::Clash => "Clash",
        Status::TooLong => "TooLong",
    }
}

/// The line that words stand for.
fn line_of(alloc: Global, words: &str) -> Result<String, Fail> {
    let mut line = String::new(alloc);
    for word in words.split_whitespace() {
        line.push_str(if line.is_empty() { "" } else { " " })?;
        line.push_str(meant(word))?;
    }
    line.push_str("\n")?;
    Ok(line)
}

/// A run ends with a status and has put a line, which the right side of a row says.
fn has_put(
    rt: &impl Abort,
    alloc: Global,
    row: &str,
    status: Status,
    put: &[u8],
) -> Result<(), Fail> {
    let (want, words) = first(sides(row).1);
    let line = line_of(alloc, words)?;
    same(rt, row, name_of(status), want);
    same(rt, row, put, line.as_bytes());
    Ok(())
}

/// `WORDS = STATUS LINE`: a run of words, how it ends and what it puts.
fn runs(rt: &impl Abort, alloc: Global, files: &mut MemFiles, row: &str) -> Result<(), Fail> {
    let words = words(alloc, sides(row).0)?;
    let mut out = MemSink::new(alloc, 32_767)?;
    let status = ksi(alloc, &words, files, &mut out);
    has_put(rt, alloc, row, status, out.written())
}

/// `calls NUMBER WORDS = STATUS LINE`: a run that calls on the files so often, and no call fails.
fn calls(rt: &impl Abort, alloc: Global, files: &mut MemFiles, row: &str) -> Result<(), Fail> {
    let (number, run) = first(row);
    let before = files.counts();
    runs(rt, alloc, files, run)?;
    let after = files.counts();
    same(
        rt,
        row,
        after.calls.wrapping_sub(before.calls),
        number.parse()?,
    );
    same(rt, row, after.faults, before.faults);
    Ok(())
}

/// Under `x` so many first bytes of `w`.
fn hold_front(alloc: Global, files: &mut MemFiles, length: usize) -> Result<(), Fail> {
    let front = part(files.bytes("w").unwrap_or(b""), 0, length).to_vec(alloc)?;
    Ok(files.hold("x", &front)?)
}

/// `fronts FROM-TO WORDS = STATUS LINE`: a run for each front of `w` whose length lies within the places, held under `x`.
fn fronts(rt: &impl Abort, alloc: Global, files: &mut MemFiles, row: &str) -> Result<(), Fail> {
    let (places, run) = first(row);
    let (from, to) = places.split_once("-").unwrap_or(("", ""));
    for length in from.parse()?..=to.parse()? {
        hold_front(alloc, files, length)?;
        runs(rt, alloc, files, run)?;
    }
    Ok(())
}

fn does(rt: &impl Abort, alloc: Global, files: &mut MemFiles, row: &str) -> Result<(), Fail> {
    let (verb, rest) = first(row);
    match verb {
        "hold" => hold(alloc, files, rest),
        "text" => hold_text(alloc, files, rest),
        "holds" => holds(rt, alloc, files, rest),
        "same" => are_same(rt, files, rest),
        "calls" => calls(rt, alloc, files, rest),
        "fronts" => fronts(rt, alloc, files, rest),
        _ => runs(rt, alloc, files, row),
    }
}

/// Does what each row says, one after the other over the same files.
pub(crate) fn play(
    rt: &impl Abort,
    alloc: Global,
    files: &mut MemFiles,
    script: &str,
) -> Result<(), Fail> {
    for row in script.lines() {
        does(rt, alloc, files, row)?;
    }
    Ok(())
}

/// Plays scripts over files that hold nothing.
pub(crate) fn plays(rt: &impl Abort, alloc: Global, scripts: &[&str]) -> Result<(), Fail> {
    let mut files = MemFiles::new(alloc, Vec::new(alloc));
    for script in scripts {
        play(rt, alloc, &mut files, script)?;
    }
    Ok(())
}

/// Plays each of these by itself.
pub(crate) fn each_plays(rt: &impl Abort, alloc: Global, each: &[&[&str]]) -> Result<(), Fail> {
    for scripts in each {
        plays(rt, alloc, scripts)?;
    }
    Ok(())
}
