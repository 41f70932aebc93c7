ghost use Rattle.std.specs.Prelude.{◌≡◌, IfOk};
ghost use Rattle.ksi_nodestore.specs.Headers.{good_header, header_at, IsGood};

use crate::heads::{HEADER, Header, HeaderFault, MAGIC};
use crate::numbers::number8;
use ksi_synod::{PLAN_SECONDS, TOO_LATE};

/// The header at the start of bytes.
pub fn header(bytes: &[u8]) -> Result<Header, HeaderFault>
    ensures head { result ≡ header_at bytes.now }
    ensures bounds { IfOk result IsGood }
{
    if bytes.len() < HEADER {
        return Err(HeaderFault::NotFormatted);
    }
    let (magic, rest) = bytes.split_at(8);
    if magic != MAGIC.as_slice() {
        return Err(HeaderFault::NotFormatted);
    }
    let (_, start) = rest.split_at(2);
    good(rest[0], rest[1], number8(start))
}

/// A header of these numbers, where they are in their bounds.
fn good(core: u8, cores: u8, start: u64) -> Result<Header, HeaderFault>
    ensures head { result ≡ good_header core cores start }
    ensures bounds { IfOk result IsGood }
{
    if core < cores && cores <= 9 && start <= TOO_LATE - PLAN_SECONDS {
        Ok(Header { core, cores, start })
    } else {
        Err(HeaderFault::Bad(core, cores, start))
    }
}
