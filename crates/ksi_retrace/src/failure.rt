//! Why nothing was compared.
use std::io::{self, ErrorKind};

#[derive(Clone, Copy)]
pub(crate) enum Failure {
    /// The words of the command.
    Words,
    /// The plan's file cannot be read, is no schedule, or has events.
    Plan,
    /// The node is not in the plan.
    Node,
    /// The record or log cannot be read, or the output cannot be written.
    Stream,
    /// Out of memory.
    Memory,
}

impl Failure {
    /// Of a call that reads and writes.
    pub(crate) fn of(error: &io::Error) -> Failure {
        if error.kind() == ErrorKind::OutOfMemory {
            Failure::Memory
        } else {
            Failure::Stream
        }
    }
}

/// Writes the line of a failure. The result is the exit status.
pub(crate) fn fail(rt: &HostRuntime, failure: Failure) -> io::Result<u8> {
    let (word, status) = match failure {
        Failure::Words => ("words", 2),
        Failure::Plan => ("plan", 3),
        Failure::Node => ("node", 3),
        Failure::Stream => ("stream", 4),
        Failure::Memory => ("memory", 5),
    };
    println!(rt; "failed {word}")?;
    Ok(status)
}
