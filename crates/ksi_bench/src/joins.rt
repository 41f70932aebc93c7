//! Joins alone: the plain loop that the other kernels are compared with.

use crate::clock::{Timed, now, since};
use ksi_imprint::{Compress, Imprint, Sha};

/// Joins the last result with the hash of nothing, so many times.
pub(crate) fn join(rt: &HostRuntime, count: u64) -> Option<Timed> {
    let begun = now(rt);
    let last = joined(count);
    since(rt, begun, Some(last_byte(&last)))
}

fn joined(count: u64) -> Imprint {
    let other = Sha::of(b"");
    let mut last = other;
    for _ in 0..count {
        last = Sha::join(last.bytes(), other.bytes(), 255);
    }
    last
}

pub(crate) fn last_byte(imprint: &Imprint) -> u8 {
    imprint.bytes()[32]
}
