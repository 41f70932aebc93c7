ghost use Rattle.std.specs.Prelude.{◌≡◌, ℕ, IfOk, string_bytes};
ghost use Rattle.ksi_top.specs.declared.report.Halt.TheVariants.{NoMemory};
ghost use Rattle.ksi_top.specs.Reports.{ended, report, saving};

use crate::status::Status;
use ksi_imprint::{Bytes, NoMemory};
use ksi_lines::Line;
use std::alloc::Global;
use std::marker::Model;

/// A file that is to be saved. A contract sees its name and its bytes.
#[derive(Drop)]
pub struct Saved {
    pub name: String,
    pub bytes: Bytes,
}

impl Model for Saved {
    ghost use Rattle.std.specs.Prelude.{ℕ, List, string_bytes};

    ghost Value = { List ℕ × List ℕ };

    ghost view = { λ saved. (string_bytes saved.name, saved.bytes) };
}

impl Saved {
    pub fn new(name: String, bytes: Bytes) -> Self
        ensures { result ≡ (string_bytes name, bytes) }
    {
        Saved { name, bytes }
    }

    /// Under a name, which is copied.
    ///
    /// # Errors
    /// `NoMemory`.
    pub fn named(alloc: Global, name: &str, bytes: Bytes) -> Result<Self, NoMemory>
        ensures { IfOk result (λ saved. saved ≡ (name.now, bytes)) }
    {
        let name = String::from_str(alloc, name)?;
        Ok(Saved::new(name, bytes))
    }

    pub fn name(&self) -> &str
        ensures { result.now ≡ self.now.0 }
    {
        self.name.as_str()
    }

    pub fn bytes(&self) -> &[u8]
        ensures { result.now ≡ self.now.1 }
    {
        self.bytes.as_slice()
    }
}

/// What a run reports, prints and saves.
#[derive(Drop)]
pub struct Report {
    pub status: Status,
    pub line: Line,
    pub saved: Option<Saved>,
}

impl Report {
    /// A status and a line, and nothing to save.
    pub fn new(status: Status, line: Line) -> Self
        ensures { result ≡ report status line }
    {
        Report {
            status,
            line,
            saved: None,
        }
    }

    /// The result's line, and a file to save.
    pub fn saving(line: Line, saved: Saved) -> Self
        ensures { result ≡ saving line saved.0 saved.1 }
    {
        Report {
            status: Status::Done,
            line,
            saved: Some(saved),
        }
    }
}

/// What ends a command before its result.
#[derive(Drop)]
pub enum Halt {
    Reported(Report),
    Fault,
    NoMemory,
}

impl From<NoMemory> for Halt {
    ghost from_gives = { λ _ halt. halt ≡ NoMemory };

    fn from(_: NoMemory) -> Self {
        Halt::NoMemory
    }
}

/// What was computed of loaded values, as the end of a run.
pub(crate) fn ended(computed: Result<Report, NoMemory>) -> Result<Report, Halt>
    ensures { result ≡ ended computed }
{
    Ok(computed?)
}
