ghost use Rattle.std.specs.Prelude.{◌≡◌, ◌≤◌, ◌<◌, ◌+◌, ◌^◌, OnOk, IsOk, length};
ghost use Rattle.ksi_disk.specs.Images.{laid_over, LeavesOnly, Only, Torn};
ghost use Rattle.ksi_disk.specs.Costs.{Affords, DiskCounts, Spends};

use crate::{Disk, DiskFailed};

/// A write and then a sync. At Ok the bytes are on the disk for good.
///
/// # Errors
///
/// `DiskFailed`, and the count of faults rises. A crash may then leave any bytes in that range.
pub fn write_through<D: Disk>(disk: &mut D, at: u64, bytes: &[u8]) -> Result<(), DiskFailed>
    requires durable { Only (D.content disk.old) (D.images disk.old) }
    requires at { at ≤ length (D.content disk.old) }
    ensures written { OnOk result (D.content disk.new ≡ laid_over (D.content disk.old) at bytes.now) }
    ensures within { OnOk result (at + length bytes.now < 2 ^ 64) }
    ensures durable { OnOk result (Only (D.content disk.new) (D.images disk.new)) }
    ensures any_moment { LeavesOnly D.moment D.images_since disk.old disk.new (Torn at (length bytes.now) (D.content disk.old)) }
    ensures counted { DiskCounts (D.faults disk.old) (D.faults disk.new) result }
    ensures spent { Spends (length bytes.now) 2 (D.meter disk.old) (D.meter disk.new) }
    ensures sure { Affords (length bytes.now) 2 (D.meter disk.old) → IsOk result }
{
    disk.write_at(at, bytes)?;
    disk.sync()
}
