ghost use Rattle.std.specs.Prelude.{◌≡◌};
ghost use Rattle.ksi_records.specs.Reports.{record_word};

use ksi_wire::WireFault;

/// Why an entry is refused.
#[derive(Clone, Copy)]
pub enum RecordFault {
    /// The first line is none of the forms, or is not what a node would take.
    Line(WireFault),
    /// There is no such step so far, or it sent no such message.
    Message,
    /// There is no such step so far, or it accepted no request.
    Request,
    /// The record ends inside the entry.
    Cut,
}

impl RecordFault {
    /// The word of the fault.
    pub fn word(&self) -> &'static [u8]
        ensures { result.now ≡ record_word self.now }
    {
        match self {
            RecordFault::Line(fault) => fault.word(),
            RecordFault::Message => b"message",
            RecordFault::Request => b"request",
            RecordFault::Cut => b"cut",
        }
    }
}
