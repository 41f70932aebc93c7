use crate::{Proved, Refusal};
use ksi_publications::PublicationsFault;
use ksi_signature::SignatureFault;

/// What the checks of two files come to.
#[derive(Clone, Copy, PartialEq, Eq, Debug)]
pub enum FilesVerdict {
    /// The first file is no signature; its first fault in reading order.
    NotSignature(SignatureFault),
    /// The first file is a signature, and the second is no publications file; its first fault in reading order.
    NotPublications(PublicationsFault),
    /// The first check that fails.
    Refused(Refusal),
    /// No check fails.
    Accepted(Proved),
}
