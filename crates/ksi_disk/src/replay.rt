// What a crash leaves, by what becomes of the writes since the last sync.
ghost use Rattle.std.specs.Prelude.{◌≡◌, ◌≤◌, [], ◌∷◌, IfOk, OnOk, length, drop};
ghost use Rattle.ksi_disk.specs.declared.marks.Mark.{Mark};
ghost use Rattle.ksi_disk.specs.Deeds.{deed_of, deeds_onto, image_by, left_after, left_of, pieces_length, read_after, wrote};

use crate::Fate;
use crate::marks::Mark;
use crate::overwrite::reach;
use ksi_imprint::NoMemory;
use std::alloc::Global;

/// What is left of a piece.
fn left(alloc: Global, fate: Fate, piece: &[u8]) -> Result<Vec<u8>, NoMemory>
    ensures { IfOk result (λ bytes. bytes.items ≡ left_of fate piece.now) }
{
    match fate {
        Fate::Lost => Ok(Vec::new(alloc)),
        Fate::Whole => Ok(piece.to_vec(alloc)?),
        Fate::Front(count) if count < piece.len() => Ok(piece[..count].to_vec(alloc)?),
        Fate::Front(_) => Ok(piece.to_vec(alloc)?),
        Fate::Filled(byte) => Ok(vec![in alloc; byte; piece.len()]?),
    }
}

/// One mark more, for what a read gives and for the image. Its piece stands in front of the others, which are handed back.
fn replay_one<'a>(
    alloc: Global,
    fate: Fate,
    mark: &Mark,
    pieces: &'a [u8],
    content: &mut Vec<u8>,
    image: &mut Vec<u8>,
) -> Result<&'a [u8], NoMemory>
    requires { pieces_length (mark.now ∷ []) ≤ length pieces.now }
    ensures content { OnOk result (content.new.items ≡ read_after content.old.items (deed_of mark.now pieces.now)) }
    ensures image { OnOk result (image.new.items ≡ left_after fate content.old.items image.old.items (deed_of mark.now pieces.now)) }
    ensures behind { IfOk result (λ behind. behind.now ≡ drop (pieces_length (mark.now ∷ [])) pieces.now) }
{
    match *mark {
        Mark::Wrote {
            at,
            count,
            succeeded,
        } => {
            let (piece, behind) = pieces.split_at(count);
            let left = left(alloc, fate, piece)?;
            reach(image, at, &left)?;
            reach_where(succeeded, content, at, piece)?;
            Ok(behind)
        }
        Mark::Synced => {
            *image = content.as_slice().to_vec(alloc)?;
            Ok(pieces)
        }
    }
}

/// Lays the piece over the bytes where the write succeeded.
fn reach_where(
    succeeded: bool,
    content: &mut Vec<u8>,
    at: u64,
    piece: &[u8],
) -> Result<(), NoMemory>
    ensures { OnOk result (content.new.items ≡ read_after content.old.items (wrote at piece.now succeeded)) }
{
    if succeeded {
        reach(content, at, piece)?;
    }
    Ok(())
}

/// The image after these marks, whose pieces stand one after the other.
pub(crate) fn replayed(
    alloc: Global,
    fate: Fate,
    start: &[u8],
    marks: &[Mark],
    pieces: &[u8],
) -> Result<Vec<u8>, NoMemory>
    requires { pieces_length marks.now ≤ length pieces.now }
    ensures { IfOk result (λ image. image.items ≡ image_by fate start.now (deeds_onto [] marks.now pieces.now)) }
{
    let mut content = start.to_vec(alloc)?;
    let mut image = start.to_vec(alloc)?;
    let mut rest = pieces;
    'replaying: for mark in marks {
        rest = replay_one(alloc, fate, mark, rest, &mut content, &mut image)?;
    }
    Ok(image)
}
