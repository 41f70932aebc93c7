ghost use Rattle.std.specs.Prelude.{◌≡◌, ◌≤◌, ◌+◌, ◌++◌, ◌^◌, true, length, take, vec_len, vec_capacity, IfOk, OnErr, OnOk, is_err, is_some};
ghost use Rattle.ksi_ports.specs.Outside.{count_up, Raises};
ghost use Rattle.ksi_ports.specs.Memory.{no_output, cut_at, put_cut, after_put, with_cut};

use crate::{Sink, SinkFailed};
use ksi_imprint::NoMemory;
use std::alloc::Global;
use std::marker::Model;

/// The put of this number, counted from 0, is to fail after this many bytes of its piece.
#[derive(Drop)]
pub(crate) struct Cut {
    call: u64,
    after: usize,
}

/// Output in memory that has room for a number of bytes, with a list of the puts that are to fail. A put that exceeds the
/// room fails too, and writes nothing.
#[derive(Drop)]
pub struct MemSink {
    written: Vec<u8>,
    room: usize,
    // the newest first: it counts
    cuts: Vec<Cut>,
    puts: u64,
    given: u64,
    faults: u64,
}

impl Model for MemSink {
    ghost use Rattle.std.specs.Prelude.{◌≤◌, vec_len, vec_capacity};
    ghost use Rattle.ksi_ports.specs.Memory.{StoredOutput};

    ghost Value = { StoredOutput };

    ghost view = { λ sink. record {
      written = sink.written.items;
      room = sink.room;
      cuts = sink.cuts.items;
      puts = sink.puts;
      given = sink.given;
      faults = sink.faults;
    } };

    ghost invariant = { λ sink. (vec_len sink.written ≤ sink.room) × (sink.room ≤ vec_capacity sink.written) };
}

impl MemSink {
    /// Output with room for this many bytes.
    pub fn new(alloc: Global, room: usize) -> Result<Self, NoMemory>
        ensures { IfOk result (λ sink. sink ≡ no_output room) }
    {
        Ok(MemSink {
            written: Vec::with_capacity(alloc, room)?,
            room,
            cuts: Vec::new(alloc),
            puts: 0,
            given: 0,
            faults: 0,
        })
    }

    /// Lets the put of that number, counted from 0, fail after this many bytes of its piece, or after all if it has
    /// fewer. Of cuts of one number the newest counts. If memory runs out, nothing changes.
    pub fn cut(&mut self, call: usize, after: usize) -> Result<(), NoMemory>
        ensures ok { OnOk result (self.new ≡ with_cut self.old call after) }
        ensures no_memory { OnErr result (self.new ≡ self.old) }
    {
        let call = call as u64;
        self.cuts.insert(0, Cut { call, after })?;
        Ok(())
    }

    /// All that was written.
    pub fn written(&self) -> &[u8]
        ensures { result.now ≡ self.now.written }
    {
        &self.written
    }

    /// How many puts there were.
    pub fn puts(&self) -> u64
        ensures { result ≡ self.now.puts }
    {
        self.puts
    }

    /// How many bytes were given to puts.
    pub fn given(&self) -> u64
        ensures { result ≡ self.now.given }
    {
        self.given
    }

    /// How many puts failed.
    pub fn faults(&self) -> u64
        ensures { result ≡ self.now.faults }
    {
        self.faults
    }

    // After how many bytes of this piece the next put fails, if it is to fail.
    fn next_cut(&self, piece: &[u8]) -> Option<usize>
        ensures { result ≡ put_cut self.now piece.now }
    {
        if self.room - self.written.len() < piece.len() {
            return Some(0);
        }
        cut_of(&self.cuts, self.puts)
    }
}

// After how many bytes the put of that number is to fail, by the first cut of it.
fn cut_of(cuts: &[Cut], call: u64) -> Option<usize>
    ensures { result ≡ cut_at cuts.now call }
{
    for cut in cuts {
        if cut.call == call {
            return Some(cut.after);
        }
    }
    None
}

/// The first bytes of the piece, all where it has fewer.
#[tactic(auto, using(std::proofs::lemmas::List::take_all))]
pub(crate) fn front(piece: &[u8], count: usize) -> &[u8]
    ensures value { result.now ≡ take count piece.now }
    ensures within { length result.now ≤ length piece.now }
{
    if count < piece.len() {
        return &piece[..count];
    }
    piece
}

/// Writes a piece for which room was taken: no memory is.
pub(crate) fn append(written: &mut Vec<u8>, piece: &[u8])
    requires { vec_len written.old + length piece.now ≤ vec_capacity written.old }
    ensures items { written.new.items ≡ written.old.items ++ piece.now }
    ensures room { vec_capacity written.old ≤ vec_capacity written.new }
{
    match written.extend_from_slice(piece) {
        Ok(()) => {}
        Err(_) => unreachable!(),
    }
}

impl Sink for MemSink {
    ghost tells = { true };

    ghost written = { λ sink. sink.written };

    ghost puts = { λ sink. sink.puts };

    ghost given = { λ sink. sink.given };

    ghost faults = { λ sink. sink.faults };

    ghost free = { λ _. 2 ^ 64 };

    fn put(&mut self, piece: &[u8]) -> Result<(), SinkFailed>
        ensures later { self.old.puts ≤ self.new.puts }
        ensures called { self.new.puts ≡ count_up 1 self.old.puts }
        ensures given { self.new.given ≡ count_up (length piece.now) self.old.given }
        ensures failed { OnErr result (Raises self.old.faults self.new.faults) }
        ensures answers { is_err result ≡ is_some (put_cut self.old piece.now) }
        ensures after { self.new ≡ after_put self.old piece.now }
    {
        let cut = self.next_cut(piece);
        self.puts = self.puts.saturating_add(1);
        self.given = self.given.saturating_add(piece.len() as u64);
        match cut {
            None => {
                append(&mut self.written, piece);
                Ok(())
            }
            Some(count) => {
                append(&mut self.written, front(piece, count));
                self.faults = self.faults.saturating_add(1);
                Err(SinkFailed)
            }
        }
    }
}
