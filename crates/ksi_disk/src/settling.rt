ghost use Rattle.std.specs.Prelude.{◌≡◌, IfOk, OnOk, IsOk, length};
ghost use Rattle.ksi_disk.specs.Images.{AddsNone, LeavesOnly, Only};
ghost use Rattle.ksi_disk.specs.Costs.{Affords, DiskCounts, Spends};

use crate::{Disk, DiskFailed};

/// Makes what a read gives the only image, by one sync, and tells how many bytes that are. Nothing is written.
///
/// # Errors
///
/// `DiskFailed`, and the count of faults rises.
pub fn settle<D: Disk>(disk: &mut D) -> Result<u64, DiskFailed>
    ensures told { IfOk result (λ count. count ≡ length (D.content disk.old)) }
    ensures stays { OnOk result (D.content disk.new ≡ D.content disk.old) }
    ensures durable { OnOk result (Only (D.content disk.old) (D.images disk.new)) }
    ensures no_image { AddsNone (D.images disk.old) (D.images disk.new) }
    ensures any_moment { LeavesOnly D.moment D.images_since disk.old disk.new (D.images disk.old) }
    ensures counted { DiskCounts (D.faults disk.old) (D.faults disk.new) result }
    ensures spent { Spends 0 1 (D.meter disk.old) (D.meter disk.new) }
    ensures sure { Affords 0 1 (D.meter disk.old) → IsOk result }
{
    disk.sync()?;
    disk.len()
}
