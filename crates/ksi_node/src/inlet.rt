// Lines come in.
ghost use Rattle.std.specs.Prelude.{◌≡◌, ◌≢◌, ◌≤◌, ◌<◌, ◌++◌, List, ℕ, All, length, take, get_or, IfOk, OnOk};
ghost use Rattle.ksi_node.specs.Inlet.{came_of, is_end, is_long, HasCome, Holds, IsCut, NoFeed, PieceTaken};

use ksi_wire::MOST_LINE;
use memchr::memchr;
use std::io::{self, BufRead, ErrorKind};

/// What came.
#[derive(Clone, Copy, Debug, PartialEq, Eq)]
pub enum Came {
    /// A whole line.
    Line,
    /// A line that is longer than a line may be. It was passed over.
    Long,
    /// The end of the input. What a peer that was cut off left of a line is none.
    End,
}

impl Came {
    pub(crate) fn is_end(self) -> bool
        ensures { result ≡ is_end self }
    {
        match self {
            Came::Line | Came::Long => false,
            Came::End => true,
        }
    }

    pub(crate) fn is_long(self) -> bool
        ensures { result ≡ is_long self }
    {
        match self {
            Came::Line | Came::End => false,
            Came::Long => true,
        }
    }
}

/// The next line, without its line feed. At most as many bytes are kept as a line may have; the bytes of a longer line
/// mean nothing.
///
/// # Errors
/// The reader's, or out of memory.
pub fn next_line<R: BufRead>(reader: &mut R, line: &mut Vec<u8>) -> io::Result<Came>
    ensures came { IfOk result (λ came. HasCome came line.new.items (R.remaining reader.old) (R.remaining reader.new)) }
    ensures few { length line.new.items ≤ 32000 }
{
    line.clear();
    let mut is_long = false;
    'reading: for _ in 0..u64::MAX {
        let piece = take_piece(reader, line, &mut is_long)?;
        if piece != Piece::More {
            return Ok(came_of(piece, is_long));
        }
    }
    Err(ErrorKind::Other.into())
}

/// What came, of which no piece is left.
fn came_of(piece: Piece, is_long: bool) -> Came
    ensures { result ≡ came_of piece is_long }
{
    if is_long {
        Came::Long
    } else if piece == Piece::Whole {
        Came::Line
    } else {
        Came::End
    }
}

/// A piece of a line.
#[derive(Clone, Copy, PartialEq, Eq)]
enum Piece {
    /// More may come.
    More,
    /// Its line feed came.
    Whole,
    /// The input ended.
    Stopped,
}

/// How many bytes stand before the first line feed; all where there is none.
fn front_len(bytes: &[u8]) -> usize
    ensures bound { result ≤ length bytes.now }
    ensures free { NoFeed (take result bytes.now) }
    ensures here { result < length bytes.now → get_or bytes.now result 0 ≡ 10 }
{
    match memchr(b'\n', bytes) {
        Some(place) => place,
        None => bytes.len(),
    }
}

/// Keeps a piece of a line, unless the line is too long by it.
fn keep(line: &mut Vec<u8>, is_long: &mut bool, piece: &[u8]) -> io::Result<()>
    ensures held { OnOk result ((so_far : List ℕ) → Holds so_far line.old.items is_long.old → Holds (so_far ++ piece.now) line.new.items is_long.new) }
    ensures few { length line.old.items ≤ 32000 → length line.new.items ≤ 32000 }
{
    if *is_long {
        return Ok(());
    }
    if line.len() <= MOST_LINE && piece.len() <= MOST_LINE - line.len() {
        line.extend_from_slice(piece)?;
    } else {
        *is_long = true;
    }
    Ok(())
}

/// Takes what is there of a line.
fn take_piece<R: BufRead>(
    reader: &mut R,
    line: &mut Vec<u8>,
    is_long: &mut bool,
) -> io::Result<Piece>
    ensures taken { IfOk result (λ piece. PieceTaken piece line.old.items is_long.old line.new.items is_long.new (R.remaining reader.old) (R.remaining reader.new)) }
    ensures few { length line.old.items ≤ 32000 → length line.new.items ≤ 32000 }
{
    let available = match reader.fill_buf() {
        Ok(available) => available,
        Err(error) => return interrupted(error),
    };
    let cut = cut_of(available);
    let (front, _) = available.split_at(cut.front);
    keep(line, is_long, front)?;
    reader.consume(cut.used);
    Ok(cut.piece)
}

/// How a piece is cut off: the bytes before its line feed, and those with it.
#[derive(Clone, Copy)]
struct Cut {
    piece: Piece,
    front: usize,
    used: usize,
}

/// The first piece of these bytes.
fn cut_of(bytes: &[u8]) -> Cut
    ensures { IsCut bytes.now result }
{
    let front = front_len(bytes);
    if front < bytes.len() {
        Cut {
            piece: Piece::Whole,
            front,
            used: front + 1,
        }
    } else if front == 0 {
        Cut {
            piece: Piece::Stopped,
            front,
            used: 0,
        }
    } else {
        Cut {
            piece: Piece::More,
            front,
            used: front,
        }
    }
}

fn interrupted(error: io::Error) -> io::Result<Piece>
    ensures { IfOk result (λ piece. piece ≡ Piece.More) }
{
    if error.kind() == ErrorKind::Interrupted {
        Ok(Piece::More)
    } else {
        Err(error)
    }
}
