ghost use Rattle.std.specs.Prelude.{◌≡◌};
ghost use Rattle.ksi_roundstore.specs.Headers.{header_at};

use crate::heads::{HEADER, Header, MAGIC};
use crate::numbers::{number4, number8};

/// The header at the start of bytes; none where the magic or 20 bytes are not there.
pub fn header(bytes: &[u8]) -> Option<Header>
    ensures { result ≡ header_at bytes.now }
{
    if bytes.len() < HEADER {
        return None;
    }
    let (magic, rest) = bytes.split_at(8);
    if magic != MAGIC.as_slice() {
        return None;
    }
    let (_, start) = rest.split_at(4);
    Some(Header {
        aggregator: number4(rest),
        start: number8(start),
    })
}
