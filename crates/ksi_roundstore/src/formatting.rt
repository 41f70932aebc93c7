ghost use Rattle.std.specs.Prelude.{◌≡◌, length, OnOk, IsOk};
ghost use Rattle.ksi_disk.specs.Images.{Only};
ghost use Rattle.ksi_disk.specs.Costs.{Affords, DiskCounts, Spends};
ghost use Rattle.ksi_roundstore.specs.Headers.{empty_file};

use crate::heads::MAGIC;
use ksi_disk::{Disk, DiskFailed};
use ksi_schedule::Plan;

/// Makes an empty disk the file of an aggregator without facts, by one write and one sync.
///
/// # Errors
///
/// `DiskFailed`, and the count of faults rises. Then nothing is said of what it has.
pub fn format<D: Disk>(me: u32, plan: &Plan, disk: &mut D) -> Result<(), DiskFailed>
    requires empty { length (D.content disk.old) ≡ 0 }
    ensures written { OnOk result (D.content disk.new ≡ empty_file me plan.now.start) }
    ensures durable { OnOk result (Only (D.content disk.new) (D.images disk.new)) }
    ensures counted { DiskCounts (D.faults disk.old) (D.faults disk.new) result }
    ensures costs { Spends 21 2 (D.meter disk.old) (D.meter disk.new) }
    ensures sure { Affords 21 2 (D.meter disk.old) → IsOk result }
{
    let text = text_of(me, plan.start());
    disk.write_at(0, &text)?;
    disk.sync()
}

/// The header and a closed gate.
fn text_of(me: u32, start: u64) -> [u8; 21]
    ensures { result ≡ empty_file me start }
{
    let [a, b, c, d, e, f, g, h] = MAGIC;
    let [i, j, k, l] = me.to_be_bytes();
    let [s, t, u, v, w, x, y, z] = start.to_be_bytes();
    [
        a, b, c, d, e, f, g, h, i, j, k, l, s, t, u, v, w, x, y, z, 0,
    ]
}
