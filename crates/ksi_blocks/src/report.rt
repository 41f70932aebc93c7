//! Statuses and lines.
ghost use Rattle.std.specs.Prelude.{◌≡◌};
ghost use Rattle.ksi_blocks.specs.declared.report.Halt.TheVariants as halts;
ghost use Rattle.ksi_blocks.specs.Reports.{bad_seed, report, saving, too_long};

use ksi_imprint::{Bytes, NoMemory};
use ksi_lines::Word::{Number, Text};
use ksi_lines::{Line, print};

/// What a run prints and saves, and its exit status.
#[derive(Drop)]
pub(crate) struct Report {
    pub(crate) status: u8,
    pub(crate) line: Line,
    /// What is saved under the word OUT.
    pub(crate) file: Option<Bytes>,
}

impl Report {
    /// A status and a line, and nothing to save.
    pub(crate) fn new(status: u8, line: Line) -> Self
        ensures { result ≡ report status line }
    {
        Report {
            status,
            line,
            file: None,
        }
    }

    /// The result's line, and a file to save.
    pub(crate) fn saving(line: Line, file: Bytes) -> Self
        ensures { result ≡ saving line file }
    {
        Report {
            status: 0,
            line,
            file: Some(file),
        }
    }
}

/// What ends a command before its result.
#[derive(Drop)]
pub(crate) enum Halt {
    Reported(Report),
    Fault,
    NoMemory,
}

impl From<NoMemory> for Halt {
    ghost from_gives = { λ _ halt. halt ≡ halts.NoMemory };

    fn from(_: NoMemory) -> Self {
        Halt::NoMemory
    }
}

/// The words have no command's form.
pub(crate) fn no_words() -> Report {
    Report::new(2, print(Text("words"), &[Text("refused")], &[]))
}

/// Word `n` is no number.
pub(crate) fn bad_word(n: u64) -> Report {
    Report::new(2, print(Text("bad"), &[Text("word")], &[Number(n)]))
}

/// File word `n` has too many bytes.
pub(crate) fn too_long(n: u64) -> Report
    ensures { result ≡ too_long n }
{
    Report::new(7, print(Text("too"), &[Text("long")], &[Number(n)]))
}

/// The file of word 2 has no seed. Nothing of its content is printed.
pub(crate) fn bad_seed() -> Report
    ensures { result ≡ bad_seed }
{
    Report::new(3, print(Text("bad"), &[Text("seed")], &[Number(2)]))
}
