ghost use Rattle.std.specs.Prelude.{◌≡◌, ◌≤◌, ◌^◌, false, [], length, OnOk, OnErr};
ghost use Rattle.std.specs.Bool.{OnTrue, OnFalse};
ghost use Rattle.std.specs.Io.KnownBytes.{Appends};
ghost use Rattle.ksi_ports.specs.Outside.{Raises, count_up};
ghost use Rattle.ksi_ports.specs.Host.{AppendsFront};

use crate::{Sink, SinkFailed};
use std::io::Write;
use std::marker::Model;

/// Output over a writer. The bytes that were written are not known.
#[derive(Drop)]
pub struct HostSink<W: Write> {
    writer: W,
    puts: u64,
    given: u64,
    faults: u64,
}

impl<W: Write> Model for HostSink<W> {
    ghost use Rattle.ksi_ports.specs.Host.{CountedOutput};

    ghost Value = { CountedOutput W };

    ghost view = { λ sink. record { writer = sink.writer; puts = sink.puts; given = sink.given; faults = sink.faults } };
}

impl<W: Write> HostSink<W> {
    /// Output to this writer. There was no put so far.
    pub fn new(writer: W) -> Self
        ensures { result ≡ record { writer = writer; puts = 0; given = 0; faults = 0 } }
    {
        HostSink {
            writer,
            puts: 0,
            given: 0,
            faults: 0,
        }
    }

    /// How many puts there were.
    pub fn puts(&self) -> u64
        ensures { result ≡ self.now.puts }
    {
        self.puts
    }

    /// How many bytes were given to puts.
    pub fn given(&self) -> u64
        ensures { result ≡ self.now.given }
    {
        self.given
    }

    /// How many puts failed.
    pub fn faults(&self) -> u64
        ensures { result ≡ self.now.faults }
    {
        self.faults
    }
}

impl<W: Write> Sink for HostSink<W> {
    ghost tells = { false };

    ghost written = { λ _. [] };

    ghost puts = { λ sink. sink.puts };

    ghost given = { λ sink. sink.given };

    ghost faults = { λ sink. sink.faults };

    ghost free = { λ _. 2 ^ 64 };

    fn put(&mut self, piece: &[u8]) -> Result<(), SinkFailed>
        ensures later { self.old.puts ≤ self.new.puts }
        ensures called { self.new.puts ≡ count_up 1 self.old.puts }
        ensures given { self.new.given ≡ count_up (length piece.now) self.old.given }
        ensures counted { OnOk result (self.new.faults ≡ self.old.faults) }
        ensures failed { OnErr result (Raises self.old.faults self.new.faults) }
        ensures once { OnErr result (self.new.faults ≡ count_up 1 self.old.faults) }
        ensures writes { OnOk result (Appends (W.contents self.old.writer)
            (W.contents self.new.writer) piece.now) }
        ensures front { OnErr result (AppendsFront (W.contents self.old.writer)
            (W.contents self.new.writer) piece.now) }
    {
        self.puts = self.puts.saturating_add(1);
        self.given = self.given.saturating_add(piece.len() as u64);
        if write_whole(&mut self.writer, piece) {
            return Ok(());
        }
        self.faults = self.faults.saturating_add(1);
        Err(SinkFailed)
    }
}

/// Writes the piece, and says whether it was taken. A write that takes nothing is a fault.
#[tactic(auto, using(crate::proofs::WriteLemmas::appends_more, crate::proofs::WriteLemmas::front, crate::proofs::WriteLemmas::front_kept))]
pub(crate) fn write_whole<W: Write>(writer: &mut W, piece: &[u8]) -> bool
    ensures whole { OnTrue result (Appends (W.contents writer.old) (W.contents writer.new) piece.now) }
    ensures front { OnFalse result (AppendsFront (W.contents writer.old) (W.contents writer.new) piece.now) }
{
    let mut taken = 0;
    'writing: while taken < piece.len() {
        match writer.write(&piece[taken..]) {
            Ok(0) | Err(_) => return false,
            Ok(count) => taken += count,
        }
    }
    writer.flush().is_ok()
}
