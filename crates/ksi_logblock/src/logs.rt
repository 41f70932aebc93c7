//! A log, as the lines of a block.
ghost use Rattle.std.specs.Prelude.{◌≡◌, ◌<◌, ◌∷◌, IfOk, OnOk, IsOk, length};
ghost use Rattle.ksi_imprint.specs.Refused.{IfRefused};
ghost use Rattle.ksi_logblock.specs.Blocks.{with_line};
ghost use Rattle.ksi_logblock.specs.Logs.{IsLogRefusal, IsShort, MakeBlock, lines_of};
ghost use Rattle.ksi_logblock.specs.Lines.{IsLineRefusal};

use crate::block::{Block, PushRefusal};
use ksi_imprint::{Compress, Refused};
use memchr::memchr;
use std::alloc::Global;

/// Why a log makes no block.
#[derive(Clone, Copy, PartialEq, Eq)]
pub enum LogRefusal {
    /// B3: it has no lines.
    NoLines,
    /// B5: it has a 65,537th line.
    TooManyLines,
    /// B6: this line, counted from 0, has this many bytes, more than 8,000.
    LineTooLong { line: usize, size: usize },
}

/// The block of the lines of a log. They are borrowed.
///
/// # Errors
/// `NoLines` if there are none; otherwise the refusal of the first line that a block does not take, or `NoMemory`.
pub fn block_of<'a, C: Compress>(
    alloc: Global,
    seed: [u8; 32],
    log: &'a [u8],
) -> Result<Block<'a, C>, Refused<LogRefusal>>
    ensures block { IfOk result (λ block. block ≡ record { seed = seed; lines = lines_of log.now }) }
    ensures taken { IsOk result → MakeBlock (lines_of log.now) }
    ensures refused { IfRefused result (IsLogRefusal (lines_of log.now)) (0 < length (lines_of log.now)) }
{
    if log.is_empty() {
        return Err(Refused::Fault(LogRefusal::NoLines));
    }
    let mut block = Block::new(alloc, seed);
    let mut rest = log;
    'lines: while !rest.is_empty() {
        let (line, others) = first_line(rest);
        match take_line(&mut block, line) {
            Ok(()) => {}
            Err(refused) => return Err(refused),
        }
        rest = others;
    }
    let _few = block.count();
    Ok(block)
}

/// The first line, and the part after it.
fn first_line(log: &[u8]) -> (&[u8], &[u8])
    requires { 0 < length log.now }
    ensures lines { lines_of log.now ≡ result.0.now ∷ lines_of result.1.now }
    ensures shorter { length result.1.now < length log.now }
{
    match memchr(b'\n', log) {
        Some(place) => {
            let (line, rest) = log.split_at(place);
            let (_, others) = rest.split_at(1);
            (line, others)
        }
        None => (log, &[]),
    }
}

/// Adds a line of a log, whose lines before it the block has.
fn take_line<'a, C: Compress>(
    block: &mut Block<'a, C>,
    line: &'a [u8],
) -> Result<(), Refused<LogRefusal>>
    ensures added { OnOk result (block.new ≡ with_line line.now block.old) }
    ensures short { IsOk result → IsShort line.now }
    ensures refused { IfRefused result (IsLineRefusal block.old.lines line.now) (Unit {0}) }
{
    let count = block.count();
    match block.push(line) {
        Ok(()) => Ok(()),
        Err(Refused::Fault(PushRefusal::Full)) => Err(Refused::Fault(LogRefusal::TooManyLines)),
        Err(Refused::Fault(PushRefusal::LineTooLong(size))) => {
            Err(Refused::Fault(LogRefusal::LineTooLong { line: count, size }))
        }
        Err(Refused::NoMemory) => Err(Refused::NoMemory),
    }
}
