// The list of what was done to a disk.
ghost use Rattle.std.specs.Prelude.{◌≡◌, ◌<◌, ◌≤◌, ◌+◌, ◌∷◌, [], ◌++◌, length, vec_len, vec_capacity};
ghost use Rattle.ksi_disk.specs.declared.marks.Mark.{Mark};
ghost use Rattle.ksi_disk.specs.Deeds.{deeds_onto, pieces_length, wrote, synced};

/// One of the deeds of a disk. The piece of a write stands in the disk's pieces, behind those of earlier ones.
#[derive(Clone, Copy)]
pub(crate) enum Mark {
    Wrote {
        at: u64,
        count: usize,
        succeeded: bool,
    },
    Synced,
}

/// Adds a piece for which there is room.
pub(crate) fn append(bytes: &mut Vec<u8>, piece: &[u8])
    requires { vec_len bytes.old + length piece.now ≤ vec_capacity bytes.old }
    ensures items { bytes.new.items ≡ bytes.old.items ++ piece.now }
    ensures capacity { vec_capacity bytes.old ≤ vec_capacity bytes.new }
{
    match bytes.extend_from_slice(piece) {
        Ok(()) => {}
        Err(_) => unreachable!(),
    }
}

/// Adds a write, whose piece goes behind the others.
pub(crate) fn note_write(
    marks: &mut Vec<Mark>,
    pieces: &mut Vec<u8>,
    at: u64,
    piece: &[u8],
    succeeded: bool,
)
    requires mark { vec_len marks.old < vec_capacity marks.old }
    requires room { vec_len pieces.old + length piece.now ≤ vec_capacity pieces.old }
    requires whole { pieces_length marks.old.items ≡ length pieces.old.items }
    ensures deeds { deeds_onto [] marks.new.items pieces.new.items ≡ wrote at piece.now succeeded ∷ deeds_onto [] marks.old.items pieces.old.items }
    ensures whole { pieces_length marks.new.items ≡ length pieces.new.items }
    ensures count { vec_len marks.new ≡ vec_len marks.old + 1 }
    ensures size { vec_len pieces.new ≡ vec_len pieces.old + length piece.now }
    ensures marks_capacity { vec_capacity marks.old ≤ vec_capacity marks.new }
    ensures pieces_capacity { vec_capacity pieces.old ≤ vec_capacity pieces.new }
{
    marks.push_reserved(Mark::Wrote {
        at,
        count: piece.len(),
        succeeded,
    });
    append(pieces, piece);
}

/// Adds a sync.
pub(crate) fn note_sync(marks: &mut Vec<Mark>, _pieces: &Vec<u8>)
    requires mark { vec_len marks.old < vec_capacity marks.old }
    requires whole { pieces_length marks.old.items ≡ length _pieces.now.items }
    ensures deeds { deeds_onto [] marks.new.items _pieces.now.items ≡ synced ∷ deeds_onto [] marks.old.items _pieces.now.items }
    ensures whole { pieces_length marks.new.items ≡ length _pieces.now.items }
    ensures count { vec_len marks.new ≡ vec_len marks.old + 1 }
    ensures capacity { vec_capacity marks.old ≤ vec_capacity marks.new }
{
    marks.push_reserved(Mark::Synced);
}
