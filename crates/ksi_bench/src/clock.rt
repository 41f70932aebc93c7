//! What was timed.

use std::time::{Clock, Duration};

/// One byte of what was computed, so that nothing of it is left out, and how long it took.
#[derive(Clone, Copy)]
pub(crate) struct Timed {
    pub byte: u8,
    pub nanoseconds: u64,
}

/// The time now.
pub(crate) fn now(rt: &HostRuntime) -> Option<Duration> {
    rt.monotonic().ok()
}

/// What was computed since a time, if both are there.
pub(crate) fn since(rt: &HostRuntime, begun: Option<Duration>, byte: Option<u8>) -> Option<Timed> {
    let spent = now(rt)?.checked_sub(begun?)?;
    Some(Timed {
        byte: byte?,
        nanoseconds: u64::try_from(spent.as_nanos()).ok()?,
    })
}
