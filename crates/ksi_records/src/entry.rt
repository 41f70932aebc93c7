//! A record, entry by entry.
ghost use Rattle.std.specs.Prelude.{IfOk};
ghost use Rattle.ksi_records.specs.Steps.{IsBlockBehind, IsNext, IsThere};

use crate::blocks::{Came, next_line, read_block};
use crate::fault::RecordFault;
use crate::head::Head;
use crate::reading::read_head;
use crate::version::Version;
use ksi_imprint::Refused;
use ksi_schedule::Plan;
use std::alloc::Global;
use std::io::{self, BufRead};

/// What comes next in a record.
#[derive(Clone, Copy)]
pub(crate) enum Next {
    /// An entry, by its first line.
    Entry(Head),
    /// What is no entry.
    Refused(RecordFault),
    /// Nothing.
    End,
}

/// The next entry, by its first line. The line is in `line`, and the block, if it has one, in `block`.
pub(crate) fn next_entry<S: BufRead>(
    alloc: Global,
    plan: &Plan,
    version: Version,
    log: &mut S,
    line: &mut Vec<u8>,
    block: &mut Vec<u8>,
) -> io::Result<Next>
    ensures next { IfOk result (IsNext plan.now version (S.remaining log.old) (S.remaining log.new) line.new.items block.new.items) }
    ensures there { IfOk result (IsThere plan.now) }
{
    match next_line(log, line)? {
        Came::Line => {}
        Came::Cut => return Ok(Next::Refused(RecordFault::Cut)),
        Came::End => return Ok(Next::End),
    }
    let head = match read_head(alloc, plan, version, line) {
        Ok(head) => head,
        Err(Refused::Fault(fault)) => return Ok(Next::Refused(RecordFault::Line(fault))),
        Err(Refused::NoMemory) => return Err(io::ErrorKind::OutOfMemory.into()),
    };
    if next_block(log, &head, block)? {
        Ok(Next::Entry(head))
    } else {
        Ok(Next::Refused(RecordFault::Cut))
    }
}

/// The block after a first line, if it has one. Returns whether it is whole.
fn next_block<S: BufRead>(log: &mut S, head: &Head, block: &mut Vec<u8>) -> io::Result<bool>
    ensures { IfOk result (IsBlockBehind head.now (S.remaining log.old) (S.remaining log.new) block.new.items) }
{
    block.clear();
    match head {
        Head::Said(_) | Head::Sign(_) => read_block(log, block),
        Head::Unsaid(_) | Head::Restarted(_) => Ok(true),
    }
}
