use crate::fault::FrontFault;
use crate::refusal::FrontRefusal;

/// Why bytes are not a front's file that is accepted between two roots.
#[derive(Clone, Copy, PartialEq, Eq)]
pub enum FileRefusal {
    /// They are not the file of a front.
    Malformed(FrontFault),
    /// They are the file of a front of other seconds: these.
    OtherSeconds { p1: u64, p2: u64 },
    /// The front is not accepted. F1 counts at most 65 imprints.
    NotAccepted(FrontRefusal),
}
