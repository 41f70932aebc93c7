ghost use Rattle.std.specs.Prelude.{◌≡◌};
ghost use Rattle.ksi_records.specs.Node.Reports.{log_word};

use ksi_wire::WireFault;

/// Why an entry is refused.
#[derive(Clone, Copy)]
pub enum LogFault {
    /// The first line is none of the forms, or is not what this node would take.
    Line(WireFault),
    /// The log ends inside the entry.
    Cut,
}

impl LogFault {
    /// The word of the fault.
    pub fn word(&self) -> &'static [u8]
        ensures { result.now ≡ log_word self.now }
    {
        match self {
            LogFault::Line(fault) => fault.word(),
            LogFault::Cut => b"cut",
        }
    }
}
