// Pieces that are laid over bytes.
ghost use Rattle.std.specs.Prelude.{◌≡◌, ◌≤◌, ◌+◌, OnOk, length, vec_len, vec_capacity};
ghost use Rattle.ksi_disk.specs.Images.{laid_over};
ghost use Rattle.ksi_disk.specs.Deeds.{reached};

use crate::marks::append;
use ksi_imprint::NoMemory;

/// Lays a piece over bytes that have room for it behind them.
pub(crate) fn overwrite(bytes: &mut Vec<u8>, at: usize, piece: &[u8])
    requires at { at ≤ vec_len bytes.old }
    requires room { vec_len bytes.old + length piece.now ≤ vec_capacity bytes.old }
    ensures items { bytes.new.items ≡ laid_over bytes.old.items at piece.now }
    ensures capacity { vec_capacity bytes.old ≤ vec_capacity bytes.new }
{
    let behind = bytes.len() - at;
    let inside = if piece.len() < behind {
        piece.len()
    } else {
        behind
    };
    let (over, past) = piece.split_at(inside);
    bytes[at..at + inside].copy_from_slice(over);
    append(bytes, past);
}

/// The same, where the place is in the bytes or at their end, with memory for what goes past it.
pub(crate) fn reach(bytes: &mut Vec<u8>, at: u64, piece: &[u8]) -> Result<(), NoMemory>
    ensures { OnOk result (bytes.new.items ≡ reached bytes.old.items at piece.now) }
{
    if at <= bytes.len() as u64 {
        bytes.reserve(piece.len())?;
        overwrite(bytes, at as usize, piece);
    }
    Ok(())
}
