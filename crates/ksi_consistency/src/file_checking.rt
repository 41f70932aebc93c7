ghost use Rattle.std.specs.Prelude.{◌≡◌, ◌↔◌, Ok};
ghost use Rattle.ksi_consistency.specs.Few.{IsFileBetween, few_checked, file_checked};
ghost use Rattle.ksi_consistency.specs.Reading.{front_at};

use crate::file_refusal::FileRefusal;
use crate::laws::{file_is_front, front_is_read};
use crate::noting::{Noting, note};
use crate::proving::check;
use ksi_imprint::{Compress, Imprint};
use ksi_split::laws::one_split;

/// Whether bytes are the file of a front that leads from the root of the calendar of the seconds from 0 to `p1` to that of
/// the seconds from 0 to `p2`. No memory is taken.
///
/// # Errors
/// The first fault in order of bytes; or that the file has other seconds; or the first check that fails.
pub fn check_file<C: Compress>(
    bytes: &[u8],
    p1: u64,
    p2: u64,
    r1: Imprint,
    r2: Imprint,
) -> Result<(), FileRefusal>
    ensures value { result ≡ file_checked C.image p1 p2 r1 r2 (front_at bytes.now) }
    ensures accepted { (result ≡ Ok tt) ↔ IsFileBetween C.image p1 p2 r1 r2 bytes.now }
{
    front_is_read();
    file_is_front();
    one_split();
    checked::<C>(bytes, p1, p2, r1, r2)
}

fn checked<C: Compress>(
    bytes: &[u8],
    p1: u64,
    p2: u64,
    r1: Imprint,
    r2: Imprint,
) -> Result<(), FileRefusal>
    ensures { result ≡ file_checked C.image p1 p2 r1 r2 (front_at bytes.now) }
{
    match note(bytes) {
        Err(fault) => Err(FileRefusal::Malformed(fault)),
        Ok(noted) => check_noted::<C>(&noted, p1, p2, r1, r2),
    }
}

fn check_noted<C: Compress>(
    noted: &Noting,
    p1: u64,
    p2: u64,
    r1: Imprint,
    r2: Imprint,
) -> Result<(), FileRefusal>
    ensures { result ≡ few_checked C.image p1 p2 r1 r2 noted.now.contents }
{
    if noted.p1() != p1 || noted.p2() != p2 {
        return Err(FileRefusal::OtherSeconds {
            p1: noted.p1(),
            p2: noted.p2(),
        });
    }
    match check::<C>(p1, p2, r1, r2, noted.list()) {
        Ok(()) => Ok(()),
        Err(refusal) => Err(FileRefusal::NotAccepted(refusal)),
    }
}
