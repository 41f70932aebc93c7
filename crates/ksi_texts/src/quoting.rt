// Bytes that anyone may have chosen, as printable ASCII.
ghost use Rattle.std.specs.Prelude.{◌≡◌, ◌++◌, OnOk};
ghost use Rattle.ksi_texts.specs.Words.{escape, escaped, is_mark, is_plain, most_quoted, quoted_text};

use crate::printing::{first, push_digits};
use ksi_imprint::NoMemory;

/// How many bytes are shown of any.
const MOST_QUOTED: usize = 64;

/// The first bytes in quotes, and two points where there are more.
pub(crate) fn push_quoted(text: &mut Vec<u8>, bytes: &[u8]) -> Result<(), NoMemory>
    ensures { OnOk result (text.new.items ≡ text.old.items ++ quoted_text bytes.now) }
{
    text.extend_from_slice(b"\"")?;
    push_escaped(text, first(bytes, MOST_QUOTED))?;
    text.extend_from_slice(if bytes.len() > MOST_QUOTED {
        b"\".."
    } else {
        b"\""
    })
}

fn push_escaped(text: &mut Vec<u8>, bytes: &[u8]) -> Result<(), NoMemory>
    ensures { OnOk result (text.new.items ≡ text.old.items ++ escaped bytes.now) }
{
    for byte in bytes {
        push_byte(text, *byte)?;
    }
    Ok(())
}

/// A plain byte as it is, any other by its two digits.
fn push_byte(text: &mut Vec<u8>, byte: u8) -> Result<(), NoMemory>
    ensures { OnOk result (text.new.items ≡ text.old.items ++ escape byte) }
{
    if is_plain(byte) {
        return text.extend_from_slice(&[byte]);
    }
    text.extend_from_slice(b"\\x")?;
    push_digits(text, byte)
}

fn is_plain(byte: u8) -> bool
    ensures { result ≡ is_plain byte }
{
    byte >= 32 && byte <= 126 && !is_mark(byte)
}

/// What would end a quoted word, or mean something in SVG.
fn is_mark(byte: u8) -> bool
    ensures { result ≡ is_mark byte }
{
    byte == b'"' || byte == b'&' || byte == b'\'' || byte == b'<' || byte == b'>' || byte == b'\\'
}
