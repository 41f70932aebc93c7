ghost use Rattle.std.specs.Int.{w32, to_be_bytes};
ghost use Rattle.std.specs.Prelude.{◌≡◌, ◌≤◌, ◌<◌, ◌+◌, ◌-◌, ◌^◌, [], ◌∷◌, ◌++◌, length, drop, vec_len, vec_capacity, IfOk};
ghost use Rattle.ksi_disk.specs.Gates.{behind_gate};

use ksi_imprint::NoMemory;
use std::alloc::Global;
use std::marker::Model;

/// The content of a record that is to be appended, and for how many bytes more it has room. Memory is taken when it is made.
#[derive(Drop)]
pub struct Record {
    // four bytes for the length, and the content
    bytes: Vec<u8>,
    room: usize,
}

impl Model for Record {
    ghost use Rattle.std.specs.Prelude.{◌≤◌, ◌+◌, ◌<◌, ◌^◌, drop, vec_len, vec_capacity};
    ghost use Rattle.ksi_disk.specs.Drafts.{Draft};

    ghost Value = { Draft };

    ghost view = { λ record_. record { content = drop 4 record_.bytes.items; room = record_.room } };

    ghost invariant = { λ record_. (4 ≤ vec_len record_.bytes) × (vec_len record_.bytes + record_.room + 1 ≤ vec_capacity record_.bytes) };
}

impl Record {
    /// No content yet, and room for this many bytes.
    pub fn with_room(alloc: Global, room: u32) -> Result<Self, NoMemory>
        ensures { IfOk result (λ draft. draft ≡ record { content = []; room = room }) }
    {
        let room = room as usize;
        let mut bytes = Vec::with_capacity(alloc, room + 5)?;
        bytes.extend_from_slice(&[0; 4])?;
        Ok(Record { bytes, room })
    }

    /// For how many bytes more there is room.
    pub fn room(&self) -> usize
        ensures { result ≡ self.now.room }
    {
        self.room
    }

    /// Puts a piece behind the content.
    pub fn put(&mut self, piece: &[u8])
        requires { length piece.now ≤ self.old.room }
        ensures { self.new ≡ record { content = self.old.content ++ piece.now; room = self.old.room - length piece.now } }
    {
        append(&mut self.bytes, piece);
        self.room -= piece.len();
    }

    /// The part after the gate of the record: its length, its content, and a closed gate.
    pub(crate) fn into_text(self) -> Vec<u8>
        requires { length self.content < 2 ^ 32 }
        ensures { result.items ≡ behind_gate self.content }
    {
        let Record { bytes, .. } = self;
        let mut text = bytes;
        let count = (text.len() - 4) as u32;
        put_length(&mut text, count);
        append(&mut text, &[0]);
        text
    }
}

/// Writes a length over the first four bytes.
fn put_length(bytes: &mut Vec<u8>, count: u32)
    requires { 4 ≤ vec_len bytes.old }
    ensures items { bytes.new.items ≡ to_be_bytes w32 count ++ drop 4 bytes.old.items }
    ensures size { vec_len bytes.new ≡ vec_len bytes.old }
    ensures capacity { vec_capacity bytes.old ≤ vec_capacity bytes.new }
{
    bytes[0..4].copy_from_slice(&count.to_be_bytes());
}

/// Writes a piece for which there is room.
fn append(bytes: &mut Vec<u8>, piece: &[u8])
    requires { vec_len bytes.old + length piece.now ≤ vec_capacity bytes.old }
    ensures items { bytes.new.items ≡ bytes.old.items ++ piece.now }
    ensures capacity { vec_capacity bytes.old ≤ vec_capacity bytes.new }
{
    match bytes.extend_from_slice(piece) {
        Ok(()) => {}
        Err(_) => unreachable!(),
    }
}
