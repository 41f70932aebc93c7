//! The next line, and the next block.
ghost use Rattle.std.specs.Prelude.{◌≡◌, [], IfOk};
ghost use Rattle.ksi_records.specs.Blocks.Steps.{IsLineOf, IsLastLine, IsBlockOf};

use std::io::{self, BufRead};

/// What came of a line.
#[derive(Clone, Copy)]
pub(crate) enum Came {
    /// A whole line.
    Line,
    /// A line without its line feed.
    Cut,
    /// The end.
    End,
}

/// What a line of a block is.
#[derive(Clone, Copy)]
pub(crate) enum LastLine {
    /// A full stop.
    Stop,
    /// Another line.
    Other,
    /// What has no line feed.
    Cut,
}

/// The next line, without its line feed.
///
/// # Errors
/// The reader's. `OutOfMemory`.
pub(crate) fn next_line<S: BufRead>(log: &mut S, line: &mut Vec<u8>) -> io::Result<Came>
    ensures { IfOk result (IsLineOf (S.remaining log.old) (S.remaining log.new) line.new.items) }
{
    line.clear();
    if log.read_until(b'\n', line)? == 0 {
        return Ok(Came::End);
    }
    let Some(last) = line.pop() else {
        return Ok(Came::Cut);
    };
    if last == b'\n' {
        Ok(Came::Line)
    } else {
        Ok(Came::Cut)
    }
}

/// The lines to the next full stop. The answer is whether there is one.
///
/// # Errors
/// The reader's. `OutOfMemory`.
pub(crate) fn read_block<S: BufRead>(log: &mut S, block: &mut Vec<u8>) -> io::Result<bool>
    requires { block.old.items ≡ [] }
    ensures { IfOk result (IsBlockOf (S.remaining log.old) (S.remaining log.new) block.new.items) }
{
    'lines: for _ in 0..u64::MAX {
        let before = block.len();
        log.read_until(b'\n', block)?;
        let (_, line) = block.split_at(before);
        match last_line(line) {
            LastLine::Stop => return Ok(true),
            LastLine::Other => {}
            LastLine::Cut => return Ok(false),
        }
    }
    Err(io::ErrorKind::Other.into())
}

/// What a line is.
fn last_line(line: &[u8]) -> LastLine
    ensures { IsLastLine line.now result }
{
    if line == b".\n".as_slice() {
        return LastLine::Stop;
    }
    match line {
        [.., b'\n'] => LastLine::Other,
        _ => LastLine::Cut,
    }
}
