// Reads of the parts of a record.
ghost use Rattle.std.specs.Int.{w32, from_be_bytes};
ghost use Rattle.std.specs.Prelude.{◌≡◌, ◌≤◌, ◌+◌, ◌∷◌, take, drop, length, IfOk, OnOk, IsOk, IsErrOf};
ghost use Rattle.ksi_disk.specs.Costs.{Affords, DiskCounts};
ghost use Rattle.ksi_disk.specs.declared.front.Front.TheVariants as front;
ghost use Rattle.ksi_disk.specs.Reads.{ReadCounts, WroteNothing};

use crate::front::Front;
use crate::{Disk, DiskFailed, ReadRefusal};
use ksi_imprint::Bytes;
use std::alloc::Global;

/// The byte at a place.
pub(crate) fn read_gate<D: Disk>(disk: &mut D, place: u64) -> Result<u8, DiskFailed>
    requires { place + 1 ≤ length (D.content disk.old) }
    ensures gate { IfOk result (λ gate. drop place (D.content disk.old) ≡ gate ∷ drop (place + 1) (D.content disk.old)) }
    ensures stays { OnOk result (D.content disk.new ≡ D.content disk.old) }
    ensures nothing { WroteNothing D.images D.moment D.images_since D.meter disk.old disk.new }
    ensures counted { DiskCounts (D.faults disk.old) (D.faults disk.new) result }
    ensures sure { Affords 0 0 (D.meter disk.old) → IsOk result }
{
    let mut gate = [0];
    disk.read(place, &mut gate)?;
    Ok(gate[0])
}

/// The length that four bytes at a place state.
pub(crate) fn read_length<D: Disk>(disk: &mut D, place: u64) -> Result<u32, DiskFailed>
    requires { place + 4 ≤ length (D.content disk.old) }
    ensures value { IfOk result (λ count. count ≡ from_be_bytes w32 (take 4 (drop place (D.content disk.old)))) }
    ensures stays { OnOk result (D.content disk.new ≡ D.content disk.old) }
    ensures nothing { WroteNothing D.images D.moment D.images_since D.meter disk.old disk.new }
    ensures counted { DiskCounts (D.faults disk.old) (D.faults disk.new) result }
    ensures sure { Affords 0 0 (D.meter disk.old) → IsOk result }
{
    let mut count = [0; 4];
    disk.read(place, &mut count)?;
    Ok(u32::from_be_bytes(count))
}

/// A content of this many bytes.
pub(crate) fn read_content<D: Disk>(
    alloc: Global,
    disk: &mut D,
    place: u64,
    count: u32,
) -> Result<Front, ReadRefusal>
    requires { place + count ≤ length (D.content disk.old) }
    ensures content { IfOk result (λ found. found ≡ front.Whole (take count (drop place (D.content disk.old)))) }
    ensures stays { OnOk result (D.content disk.new ≡ D.content disk.old) }
    ensures nothing { WroteNothing D.images D.moment D.images_since D.meter disk.old disk.new }
    ensures counted { ReadCounts (D.faults disk.old) (D.faults disk.new) result }
    ensures sure { Affords 0 0 (D.meter disk.old) → IsErrOf result ReadRefusal.Failed → ⊥ }
{
    let mut content = vec![in alloc; 0u8; count as usize]?;
    disk.read(place, &mut content)?;
    Ok(Front::Whole(Bytes::from_vec(content)))
}
