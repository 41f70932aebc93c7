use crate::same::same;
use ksi_ports::{HostSink, Sink, SinkFailed};
use std::io;
use std::io::{Error, ErrorKind, Write};
use std::process::Abort;

/// Takes one byte at each of so many calls, and then none or fails.
#[derive(Drop)]
struct Stream {
    calls: usize,
    fails: bool,
}

impl Stream {
    fn end(&self) -> io::Result<()> {
        if self.fails {
            return Err(Error::from(ErrorKind::Other));
        }
        Ok(())
    }
}

impl Write for Stream {
    fn write(&mut self, buf: &[u8]) -> io::Result<usize> {
        if self.calls > 0 {
            self.calls -= 1;
            return Ok(buf.len().min(1));
        }
        self.end()?;
        Ok(0)
    }

    fn flush(&mut self) -> io::Result<()> {
        self.end()
    }
}

fn writes(rt: &impl Abort, stream: Stream, want: Result<(), SinkFailed>) {
    let mut sink = HostSink::new(stream);
    same(rt, "put", sink.put(b"abc"), want);
    same(rt, "faults", sink.faults(), u64::from(want.is_err()));
}

// Where all three bytes are taken, it is the flush that fails.
#[test]
fn an_error_in_mid_stream_ends_the_put(rt: HostRuntime) {
    static ROWS: [(usize, bool, Result<(), SinkFailed>); 5] = [
        (0, false, Err(SinkFailed)),
        (2, true, Err(SinkFailed)),
        (2, false, Err(SinkFailed)),
        (3, true, Err(SinkFailed)),
        (3, false, Ok(())),
    ];
    for (calls, fails, want) in &ROWS {
        let (calls, fails) = (*calls, *fails);
        writes(&rt, Stream { calls, fails }, *want);
    }
}
