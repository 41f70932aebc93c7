use crate::refusal::Refusal;
use ksi_signature::SignatureFault;

/// What the checks of bytes come to.
#[derive(Clone, Copy, PartialEq, Eq, Debug)]
pub enum BytesVerdict {
    /// The bytes are no signature; their first fault in reading order.
    Malformed(SignatureFault),
    /// No check fails. The second is the one that the sides of the calendar chain name.
    Accepted(u64),
    /// The first check that fails.
    Refused(Refusal),
}
