use crate::refusal::Refusal;

/// What the checks of a signature come to.
#[derive(Clone, Copy, PartialEq, Eq, Debug)]
pub enum Verdict {
    /// No check fails. The second is the one that the sides of the calendar chain name.
    Accepted(u64),
    /// The first check that fails.
    Refused(Refusal),
}
