use crate::blocks::SEED;
use crate::imprints::named;
use crate::same::same;
use ksi_imprint::{Imprint, NoMemory, Refused, Tiny};
use ksi_logblock::{Block, LogRefusal, block_of};
use std::alloc::Global;
use std::test::Fail;

/// Whether a block has these lines, and no others.
fn has_lines(block: &Block<'_, Tiny>, lines: &[&[u8]]) -> bool {
    if block.count() != lines.len() {
        return false;
    }
    for (k, line) in lines.iter().enumerate() {
        if k >= block.count() || block.line(k) != *line {
            return false;
        }
    }
    true
}

/// Whether a log is read as these lines, or why it is not read.
fn is_read_as(alloc: Global, log: &[u8], lines: &[&[u8]]) -> Result<bool, Refused<LogRefusal>> {
    match block_of::<Tiny>(alloc, SEED, log) {
        Ok(block) => Ok(has_lines(&block, lines)),
        Err(refused) => Err(refused),
    }
}

#[test]
fn a_log_is_cut_at_line_feeds(rt: HostRuntime) -> Result<(), Fail> {
    static ROWS: [(&[u8], &[&[u8]]); 8] = [
        (b"\n", &[b""]),
        (b"a", &[b"a"]),
        (b"a\n", &[b"a"]),
        (b"a\nb", &[b"a", b"b"]),
        (b"a\n\n", &[b"a", b""]),
        (b"\n\nab\n", &[b"", b"", b"ab"]),
        (b"a\r\n\0b\n", &[b"a\r", b"\0b"]),
        (b"ab\n\nc", &[b"ab", b"", b"c"]),
    ];
    for (log, lines) in &ROWS {
        same(&rt, log.len(), is_read_as(rt.alloc(), log, lines), Ok(true));
    }
    let none = Err(Refused::Fault(LogRefusal::NoLines));
    same(&rt, "no lines", is_read_as(rt.alloc(), b"", &[]), none);
    Ok(())
}

/// The imprint of the root of a log's block.
fn root_of_log(alloc: Global, log: &[u8]) -> Option<Imprint> {
    let root = block_of::<Tiny>(alloc, SEED, log).ok()?.root()?;
    Some(root.imprint)
}

#[test]
fn a_log_has_the_root_by_hand(rt: HostRuntime) -> Result<(), Fail> {
    same(
        &rt,
        "root",
        root_of_log(rt.alloc(), b"a\nb\n"),
        Some(named(0x94)),
    );
    Ok(())
}

/// A log: so many empty lines, one of so many bytes, and so many empty ones behind it.
fn log(alloc: Global, before: usize, size: usize, behind: usize) -> Result<Vec<u8>, NoMemory> {
    let mut log = Vec::new(alloc);
    for _ in 0..before {
        log.push(b'\n')?;
    }
    for _ in 0..size {
        log.push(b'x')?;
    }
    log.push(b'\n')?;
    for _ in 0..behind {
        log.push(b'\n')?;
    }
    Ok(log)
}

/// What a log is told to be.
#[derive(Clone, Copy, PartialEq, Eq)]
enum Told {
    Lines(usize),
    TooMany,
    TooLong(usize, usize),
    Nothing,
}

fn read_log(alloc: Global, log: &[u8]) -> Told {
    match block_of::<Tiny>(alloc, SEED, log) {
        Ok(block) => Told::Lines(block.count()),
        Err(Refused::Fault(LogRefusal::TooManyLines)) => Told::TooMany,
        Err(Refused::Fault(LogRefusal::LineTooLong { line, size })) => Told::TooLong(line, size),
        Err(_) => Told::Nothing,
    }
}

#[test]
fn the_first_line_that_no_block_takes_is_told(rt: HostRuntime) -> Result<(), Fail> {
    static ROWS: [(usize, usize, usize, Told); 10] = [
        (0, 8000, 0, Told::Lines(1)),
        (0, 8001, 0, Told::TooLong(0, 8001)),
        (3, 9000, 1, Told::TooLong(3, 9000)),
        (65_535, 8000, 0, Told::Lines(65_536)),
        (65_535, 8001, 0, Told::TooLong(65_535, 8001)),
        (65_536, 0, 0, Told::TooMany),
        (65_536, 8001, 0, Told::TooMany),
        (65_537, 8001, 0, Told::TooMany),
        (65_535, 8001, 1, Told::TooLong(65_535, 8001)),
        (0, 8001, 65_536, Told::TooLong(0, 8001)),
    ];
    for (before, size, behind, want) in &ROWS {
        let log = log(rt.alloc(), *before, *size, *behind)?;
        same(&rt, *before, read_log(rt.alloc(), &log), *want);
    }
    Ok(())
}
