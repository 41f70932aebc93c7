// The four calls of an append.
ghost use Rattle.std.specs.Prelude.{◌≡◌, ◌⊎◌, ◌≤◌, ◌<◌, ◌+◌, ◌^◌, ℕ, List, [], ◌∷◌, length, OnOk, IsOk};
ghost use Rattle.ksi_disk.specs.Images.{laid_over, LeavesOnly, Only, Torn};
ghost use Rattle.ksi_disk.specs.Costs.{Affords, DiskCounts, Spends};
ghost use Rattle.ksi_disk.specs.Gates.{staged};

use crate::{Disk, DiskFailed, write_through};

const OPEN: u8 = 1;

/// Writes a text behind a gate, and once it is on the disk for good opens the gate.
pub(crate) fn write_behind<D: Disk>(disk: &mut D, gate: u64, text: &[u8]) -> Result<(), DiskFailed>
    requires durable { Only (D.content disk.old) (D.images disk.old) }
    requires gate { gate < length (D.content disk.old) }
    requires room { gate + 1 < 2 ^ 64 }
    ensures written { OnOk result (D.content disk.new ≡ laid_over (staged (D.content disk.old) gate text.now) gate (1 ∷ [])) }
    ensures within { OnOk result (gate + 1 + length text.now < 2 ^ 64) }
    ensures durable { OnOk result (Only (D.content disk.new) (D.images disk.new)) }
    ensures any_moment { LeavesOnly D.moment D.images_since disk.old disk.new (λ image. Torn (gate + 1) (length text.now) (D.content disk.old) image ⊎ Torn gate 1 (staged (D.content disk.old) gate text.now) image) }
    ensures images { ((image : List ℕ) → D.images disk.new image → Torn (gate + 1) (length text.now) (D.content disk.old) image) ⊎ ((image : List ℕ) → D.images disk.new image → Torn gate 1 (staged (D.content disk.old) gate text.now) image) }
    ensures counted { DiskCounts (D.faults disk.old) (D.faults disk.new) result }
    ensures costs { Spends (length text.now + 1) 4 (D.meter disk.old) (D.meter disk.new) }
    ensures sure { Affords (length text.now + 1) 4 (D.meter disk.old) → IsOk result }
{
    write_through(disk, gate + 1, text)?;
    write_through(disk, gate, &[OPEN])
}
