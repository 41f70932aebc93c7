use ksi_imprint::Imprint;
use ksi_signature::SignatureFault;
use ksi_verifier::Refusal;

/// Why a signature is not extended to a later second.
#[derive(Clone, Copy, Debug, PartialEq, Eq)]
pub enum ExtendRefusal {
    /// The bytes are no signature: the first fault in reading order.
    Malformed(SignatureFault),
    /// The first of the checks V2 to V6 and V15 that fails, or V9 where the chains lead to the zero imprint.
    Refused(Refusal),
    /// E4: the chains' time is before the journal's start.
    BeforeStart(u64),
    /// E3: the chains' time is after the second that the signature is to be extended to.
    TooEarly {
        second: u64,
        publication: u64,
    },
    /// E2: the first second from the start on that the journal does not keep.
    Undecided(u64),
    /// E1: the journal keeps another root of the chains' time than the one that they lead to.
    RootDiffers {
        second: u64,
        kept: Imprint,
        given: Imprint,
    },
    /// E5: the new content has this many bytes, above 65,535.
    TooLarge(u64),
}
