// The parts of a picture: boxes, lines, notes and fields. Heights are counted upwards from the lower edge.
use ksi_imprint::NoMemory;
use ksi_split::Side;
use ksi_texts::Word::{self, Date, Number, Short};
use ksi_texts::{paste, push_word};

/// How high a box is.
pub(crate) const HIGH: u64 = 26;

/// How far a row of boxes is above the one below it.
const ROW: u64 = 48;

/// How far a field is above what is below it.
const GAP: u64 = 14;

/// Where boxes begin: on the left, in the middle, on the right.
const LEFT: u64 = 298;

pub(crate) const MIDDLE: u64 = 382;

const RIGHT: u64 = 466;

/// From the beginning of a box to its middle.
const HALF: u64 = 68;

/// The place of the next row, and the boxes below that lead to it: that on the way, and that beside it.
#[derive(Clone, Copy)]
pub(crate) struct Above {
    pub(crate) up: u64,
    pub(crate) below: u64,
    pub(crate) ours: u64,
    pub(crate) beside: Option<u64>,
}

/// A form, in which each `#` stands for the next number.
pub(crate) fn fill(text: &mut Vec<u8>, form: &str, numbers: &[u64]) -> Result<(), NoMemory> {
    let mut next = 0usize;
    for byte in form.as_bytes() {
        if *byte == b'#' {
            if let Some(number) = numbers.get(next) {
                push_word(text, Number(*number))?;
            }
            next = next.saturating_add(1);
        } else {
            text.extend_from_slice(&[*byte])?;
        }
    }
    Ok(())
}

/// A row of a node and of what is beside it, with lines from the row below.
pub(crate) fn draw_row(
    text: &mut Vec<u8>,
    at: Above,
    side: Side,
    node: &[u8],
    sibling: Word<'_>,
) -> Result<Above, NoMemory> {
    let (x, other) = match side {
        Side::Left => (LEFT, RIGHT),
        Side::Right => (RIGHT, LEFT),
    };
    draw_lines(text, at, x)?;
    draw_box(text, true, x, at.up, Short(node))?;
    draw_box(text, false, other, at.up, sibling)?;
    Ok(Above {
        up: at.up.saturating_add(ROW),
        below: at.up,
        ours: x,
        beside: Some(other),
    })
}

/// A box in the middle, with a note.
pub(crate) fn draw_alone(
    text: &mut Vec<u8>,
    at: Above,
    node: &[u8],
    note: &[Word<'_>],
) -> Result<Above, NoMemory> {
    draw_lines(text, at, MIDDLE)?;
    draw_box(text, true, MIDDLE, at.up, Short(node))?;
    draw_note(text, Side::Right, MIDDLE, at.up, note)?;
    Ok(Above {
        up: at.up.saturating_add(HIGH),
        below: at.up,
        ours: MIDDLE,
        beside: None,
    })
}

/// Lines from the boxes below to the box that begins at a place.
fn draw_lines(text: &mut Vec<u8>, at: Above, x: u64) -> Result<(), NoMemory> {
    let low = at.below.saturating_add(HIGH);
    let to = x.saturating_add(HALF);
    if let Some(beside) = at.beside {
        let from = beside.saturating_add(HALF);
        fill(text, "<path d=\"M# -#L# -#\"/>\n", &[from, low, to, at.up])?;
    }
    if at.up == at.below {
        return Ok(());
    }
    let from = at.ours.saturating_add(HALF);
    fill(
        text,
        "<path class=\"way\" d=\"M# -#L# -#\"/>\n",
        &[from, low, to, at.up],
    )
}

fn draw_box(
    text: &mut Vec<u8>,
    is_ours: bool,
    x: u64,
    up: u64,
    told: Word<'_>,
) -> Result<(), NoMemory> {
    let form = if is_ours {
        "<rect class=\"ours\" x=\"#\" y=\"-#\" width=\"136\" height=\"26\" rx=\"6\"/><text x=\"#\" y=\"-#\" text-anchor=\"middle\">"
    } else {
        "<rect x=\"#\" y=\"-#\" width=\"136\" height=\"26\" rx=\"6\"/><text x=\"#\" y=\"-#\" text-anchor=\"middle\">"
    };
    let numbers = [
        x,
        up.saturating_add(HIGH),
        x.saturating_add(HALF),
        up.saturating_add(9),
    ];
    fill(text, form, &numbers)?;
    push_word(text, told)?;
    text.extend_from_slice(b"</text>\n")
}

/// A note on a side of the box that begins at a place.
fn draw_note(
    text: &mut Vec<u8>,
    side: Side,
    x: u64,
    up: u64,
    note: &[Word<'_>],
) -> Result<(), NoMemory> {
    let (form, place) = match side {
        Side::Left => (
            "<text class=\"dim\" x=\"#\" y=\"-#\" text-anchor=\"end\">",
            x.saturating_sub(12),
        ),
        Side::Right => (
            "<text class=\"dim\" x=\"#\" y=\"-#\">",
            x.saturating_add(148),
        ),
    };
    fill(text, form, &[place, up.saturating_add(9)])?;
    paste(text, note)?;
    text.extend_from_slice(b"</text>\n")
}

/// A note beside what stands on the other side than the node.
pub(crate) fn draw_beside(
    text: &mut Vec<u8>,
    side: Side,
    up: u64,
    note: &[Word<'_>],
) -> Result<(), NoMemory> {
    match side {
        Side::Left => draw_note(text, Side::Right, RIGHT, up, note),
        Side::Right => draw_note(text, Side::Left, LEFT, up, note),
    }
}

fn field_height(rows: usize) -> u64 {
    ROW.saturating_mul(rows as u64).saturating_add(52)
}

/// The height of a field of this many rows.
pub(crate) fn space(rows: usize) -> u64 {
    field_height(rows).saturating_add(GAP)
}

/// The field behind the rows of a chain, with its heading and the date of its second; and where its first row is.
pub(crate) fn draw_field(
    text: &mut Vec<u8>,
    at: Above,
    rows: usize,
    heading: &[Word<'_>],
    second: u64,
) -> Result<Above, NoMemory> {
    let low = at.up.saturating_add(GAP);
    let high = field_height(rows);
    let top = low.saturating_add(high);
    fill(
        text,
        "<rect class=\"field\" x=\"10\" y=\"-#\" width=\"920\" height=\"#\" rx=\"10\"/><text class=\"head\" x=\"24\" y=\"-#\">",
        &[top, high, top.saturating_sub(20)],
    )?;
    paste(text, heading)?;
    fill(
        text,
        "</text><text class=\"dim\" x=\"24\" y=\"-#\">",
        &[top.saturating_sub(38)],
    )?;
    push_word(text, Date(second))?;
    text.extend_from_slice(b"</text>\n")?;
    Ok(Above {
        up: low.saturating_add(10),
        ..at
    })
}

/// The place of the next field, behind that of this many rows.
pub(crate) fn behind_field(at: Above, end: Above, rows: usize) -> Above {
    Above {
        up: at.up.saturating_add(space(rows)),
        ..end
    }
}
