ghost use Rattle.std.specs.Prelude.{◌≡◌, ◌≤◌, length};
ghost use Rattle.ksi_node.specs.Program.{failed_text};
ghost use Rattle.ksi_node.specs.Failures.{failure_of, failure_word, taken_failure, taken_round_failure};
ghost use Rattle.ksi_node.specs.declared.failure.Failure.TheVariants.{Memory, Stream};

use ksi_imprint::NoMemory;
use ksi_nodestore::TakeRefusal;
use ksi_ports::SinkFailed;
use std::io::{self, ErrorKind};

/// Why a node ends before its input does.
#[derive(Clone, Copy, Debug, PartialEq, Eq)]
pub enum Failure {
    /// The words of the command.
    Words,
    /// The plan's file cannot be read or is no schedule.
    Plan,
    /// The node is not in the plan.
    Node,
    /// The node's file cannot be opened, or is another node's or broken.
    File,
    /// A write or sync failed. The file is to be opened again.
    Disk,
    /// Memory ran out.
    Memory,
    /// The input or the output failed.
    Stream,
}

impl Failure {
    /// The word behind `failed`.
    pub fn word(&self) -> &'static [u8]
        ensures { result.now ≡ failure_word self.now }
    {
        match self {
            Failure::Words => b"words",
            Failure::Plan => b"plan",
            Failure::Node => b"node",
            Failure::File => b"file",
            Failure::Disk => b"disk",
            Failure::Memory => b"memory",
            Failure::Stream => b"stream",
        }
    }

    /// The last line of a run that failed.
    pub fn line(&self) -> &'static [u8]
        ensures line { result.now ≡ failed_text self.now }
        ensures short { length result.now ≤ 64 }
    {
        match self {
            Failure::Words => b"failed words\n",
            Failure::Plan => b"failed plan\n",
            Failure::Node => b"failed node\n",
            Failure::File => b"failed file\n",
            Failure::Disk => b"failed disk\n",
            Failure::Memory => b"failed memory\n",
            Failure::Stream => b"failed stream\n",
        }
    }

    /// Out of memory if the error says so, and otherwise the given failure.
    pub fn of(error: &io::Error, other: Failure) -> Failure
        ensures { result ≡ failure_of error.now other }
    {
        if error.kind() == ErrorKind::OutOfMemory {
            Failure::Memory
        } else {
            other
        }
    }
}

impl From<io::Error> for Failure {
    ghost from_gives = { λ error failure. failure ≡ failure_of error Stream };

    fn from(error: io::Error) -> Self {
        Failure::of(&error, Failure::Stream)
    }
}

impl From<NoMemory> for Failure {
    ghost from_gives = { λ _ failure. failure ≡ Memory };

    fn from(_: NoMemory) -> Self {
        Failure::Memory
    }
}

impl From<SinkFailed> for Failure {
    ghost from_gives = { λ _ failure. failure ≡ Stream };

    fn from(_: SinkFailed) -> Self {
        Failure::Stream
    }
}

impl From<TakeRefusal> for Failure {
    ghost from_gives = { λ refusal failure. failure ≡ taken_failure refusal };

    fn from(refusal: TakeRefusal) -> Self {
        match refusal {
            TakeRefusal::Failed | TakeRefusal::Spent => Failure::Disk,
            TakeRefusal::NoMemory => Failure::Memory,
        }
    }
}

impl From<ksi_roundstore::TakeRefusal> for Failure {
    ghost from_gives = { λ refusal failure. failure ≡ taken_round_failure refusal };

    fn from(refusal: ksi_roundstore::TakeRefusal) -> Self {
        match refusal {
            ksi_roundstore::TakeRefusal::Failed | ksi_roundstore::TakeRefusal::Spent => {
                Failure::Disk
            }
            ksi_roundstore::TakeRefusal::NoMemory => Failure::Memory,
        }
    }
}
