//! A count that is read, and the line that is printed.

use itoa::Buffer;
use ksi_ports::{HostSink, Sink};
use std::io;

/// The number of decimal digits.
pub(crate) fn number(word: &[u8]) -> Option<u64> {
    ksi_schedule::read_number(word)
}

/// Puts the kernel, the count and the nanoseconds.
pub(crate) fn put(rt: &HostRuntime, kernel: &String, count: &String, nanoseconds: u64) {
    let mut out = HostSink::new(io::writer(rt));
    let mut buffer = Buffer::new();
    let pieces = [
        kernel.as_bytes(),
        b" ",
        count.as_bytes(),
        b" ",
        buffer.format(nanoseconds).as_bytes(),
        b"\n",
    ];
    for piece in pieces {
        let _ = out.put(piece);
    }
}
