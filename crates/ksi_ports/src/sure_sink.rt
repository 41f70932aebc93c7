ghost use Rattle.std.specs.Prelude.{◌≡◌, ◌≤◌, Ok, true, length, IfOk};
ghost use Rattle.ksi_ports.specs.Outside.{count_up};
ghost use Rattle.ksi_ports.specs.Sure.{sure_output, after_sure_put};

use crate::mem_sink::append;
use crate::{Sink, SinkFailed};
use ksi_imprint::NoMemory;
use std::alloc::Global;
use std::marker::Model;

/// Output in memory whose puts do not fail: it takes a number of bytes, for which it has room from the start.
#[derive(Drop)]
pub struct SureSink {
    written: Vec<u8>,
    free: usize,
    puts: u64,
    given: u64,
}

impl Model for SureSink {
    ghost use Rattle.std.specs.Prelude.{◌≤◌, ◌+◌, vec_len, vec_capacity};
    ghost use Rattle.ksi_ports.specs.Sure.{SureOutput};

    ghost Value = { SureOutput };

    ghost view = { λ sink. record {
      written = sink.written.items;
      free = sink.free;
      puts = sink.puts;
      given = sink.given;
    } };

    ghost invariant = { λ sink. vec_len sink.written + sink.free ≤ vec_capacity sink.written };
}

impl SureSink {
    /// Output with room for this many bytes.
    pub fn new(alloc: Global, room: usize) -> Result<Self, NoMemory>
        ensures { IfOk result (λ sink. sink ≡ sure_output room) }
    {
        Ok(SureSink {
            written: Vec::with_capacity(alloc, room)?,
            free: room,
            puts: 0,
            given: 0,
        })
    }

    /// All that was written.
    pub fn written(&self) -> &[u8]
        ensures { result.now ≡ self.now.written }
    {
        &self.written
    }

    /// How many bytes may still be put.
    pub fn free(&self) -> usize
        ensures { result ≡ self.now.free }
    {
        self.free
    }
}

impl Sink for SureSink {
    ghost tells = { true };

    ghost written = { λ sink. sink.written };

    ghost puts = { λ sink. sink.puts };

    ghost given = { λ sink. sink.given };

    ghost faults = { λ _. 0 };

    ghost free = { λ sink. sink.free };

    fn put(&mut self, piece: &[u8]) -> Result<(), SinkFailed>
        requires { length piece.now ≤ self.old.free }
        ensures later { self.old.puts ≤ self.new.puts }
        ensures called { self.new.puts ≡ count_up 1 self.old.puts }
        ensures given { self.new.given ≡ count_up (length piece.now) self.old.given }
        ensures sure { result ≡ Ok tt }
        ensures after { self.new ≡ after_sure_put self.old piece.now }
    {
        self.puts = self.puts.saturating_add(1);
        self.given = self.given.saturating_add(piece.len() as u64);
        self.free -= piece.len();
        append(&mut self.written, piece);
        Ok(())
    }
}
