//! A log, entry by entry.
ghost use Rattle.std.specs.Prelude.{◌≡◌, IfOk};
ghost use Rattle.ksi_schedule.specs.Printed.{actor_word};
ghost use Rattle.ksi_records.specs.Node.Steps.{FitsNext, IsBlockBehind, IsNext, IsThere};

use crate::blocks::{Came, next_line, read_block};
use crate::node::fault::LogFault;
use crate::node::head::Head;
use crate::node::reading::read_head;
use ksi_imprint::Refused;
use ksi_schedule::{Actor, Plan};
use std::alloc::Global;
use std::io::{self, BufRead};

/// What comes next in a log.
#[derive(Drop)]
pub(crate) enum Next {
    /// An entry, by its first line.
    Entry(Head),
    /// What is no entry.
    Refused(LogFault),
    /// Nothing.
    End,
}

/// The next entry of the log of a node: its first line is in `line`, and its block, if it has one, in `block`.
pub(crate) fn next_entry<S: BufRead>(
    alloc: Global,
    plan: &Plan,
    me: Actor,
    word: &[u8],
    log: &mut S,
    line: &mut Vec<u8>,
    block: &mut Vec<u8>,
) -> io::Result<Next>
    requires word { word.now ≡ actor_word me }
    requires there { IsThere plan.now me }
    ensures next { IfOk result (IsNext plan.now me (S.remaining log.old) (S.remaining log.new) line.new.items block.new.items) }
    ensures fits { IfOk result (FitsNext plan.now me) }
{
    match next_line(log, line)? {
        Came::Line => {}
        Came::Cut => return Ok(Next::Refused(LogFault::Cut)),
        Came::End => return Ok(Next::End),
    }
    let head = match read_head(alloc, plan, me, word, line) {
        Ok(head) => head,
        Err(Refused::Fault(fault)) => return Ok(Next::Refused(LogFault::Line(fault))),
        Err(Refused::NoMemory) => return Err(io::ErrorKind::OutOfMemory.into()),
    };
    if next_block(log, &head, block)? {
        Ok(Next::Entry(head))
    } else {
        Ok(Next::Refused(LogFault::Cut))
    }
}

/// The block after a first line, if it has one. Returns whether it is whole.
fn next_block<S: BufRead>(log: &mut S, head: &Head, block: &mut Vec<u8>) -> io::Result<bool>
    ensures { IfOk result (IsBlockBehind head.now (S.remaining log.old) (S.remaining log.new) block.new.items) }
{
    block.clear();
    match head {
        Head::Said(_) => read_block(log, block),
        Head::Unsaid(_) | Head::Restarted => Ok(true),
    }
}
