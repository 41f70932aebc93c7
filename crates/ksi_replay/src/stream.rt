ghost use Rattle.std.specs.Prelude.{◌≡◌, ◌^◌, length};
ghost use Rattle.ksi_replay.specs.Stream.{block, byte_of, further, stream};

use sha2::{Digest, Sha256};
use std::marker::Model;

/// The stream of bytes of a number. It keeps the block that the next byte stands in.
#[derive(Drop)]
pub(crate) struct Stream {
    number: u64,
    taken: u64,
    kept: [u8; 32],
}

impl Model for Stream {
    ghost use Rattle.std.specs.Prelude.{◌≡◌, ◌/◌, ◌^◌};
    ghost use Rattle.ksi_replay.specs.Stream.{Place, block};

    ghost Value = { Place };

    ghost view = { λ s. record { number = s.number; places = 2 ^ 64; taken = s.taken } };

    ghost invariant = { λ s. s.kept ≡ block s.number (s.taken / 32) };
}

impl Stream {
    /// The stream from its first byte on.
    pub(crate) fn new(number: u64) -> Self
        ensures { result ≡ record { number = number; places = 2 ^ 64; taken = 0 } }
    {
        Stream {
            number,
            taken: 0,
            kept: block_of(number, 0),
        }
    }

    /// Fills the slice with the next bytes.
    pub(crate) fn fill(&mut self, bytes: &mut [u8])
        ensures bytes { bytes.new ≡ stream self.old (length bytes.old) }
        ensures place { self.new ≡ further self.old (length bytes.old) }
    {
        // A number that was read is known to be in its range.
        let _taken = self.taken;
        'bytes: for k in 0..bytes.len() {
            bytes[k] = self.next();
        }
    }

    /// The next byte.
    #[tactic(auto, using(crate::proofs::Places::same_block), unfolding(crate::specs::Stream::byte_of))]
    fn next(&mut self) -> u8
        ensures byte { result ≡ byte_of self.old.number self.old.taken }
        ensures place { self.new ≡ further self.old 1 }
    {
        let byte = self.kept[(self.taken % 32) as usize];
        self.taken = self.taken.wrapping_add(1);
        if self.taken % 32 == 0 {
            self.kept = block_of(self.number, self.taken / 32);
        }
        byte
    }
}

/// A block of the stream of a number.
fn block_of(number: u64, i: u64) -> [u8; 32]
    ensures { result ≡ block number i }
{
    let mut hasher = Sha256::new();
    hasher.update(b"ksi");
    hasher.update(&number.to_be_bytes());
    hasher.update(&i.to_be_bytes());
    hasher.finalize()
}
