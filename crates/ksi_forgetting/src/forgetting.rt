ghost use Rattle.std.specs.Prelude.{◌≡◌, ◌⊎◌, ◌<◌, ◌≤◌, ℕ, length, IfOk, OnOk};
ghost use Rattle.ksi_disk.specs.Images.{AddsNone, LeavesOnly, Only};
ghost use Rattle.ksi_disk.specs.Reads.{WroteNothing};
ghost use Rattle.ksi_disk.specs.Costs.{DiskCounts};
ghost use Rattle.ksi_forgetting.specs.Forgets.{ForgetCounts, ForgetsAs, IsHeldFile, IsNotHeld, disk_after};

use crate::horizons::horizon;
use crate::left::read_left;
use crate::{ForgetRefusal, Forgotten};
use ksi_corenode::laws::one_core_of_facts;
use ksi_disk::{Disk, DiskFailed};
use ksi_imprint::Compress;
use ksi_nodestore::{NodeStore, OpenRefusal};
use ksi_synod::CorePlan;
use std::alloc::Global;

/// Writes the compacted file of a core to an empty disk: each second before `before` is forgotten, up to the first that is not
/// held (`far`). The old disk is opened as by `NodeStore::open` and read again; nothing is written to it.
///
/// # Errors
///
/// `Old`, with the refusal of the old file; if that is `Failed`, the old disk's count of faults rose. `New`: the new disk's count
/// of faults rose. Otherwise both counts are unchanged.
pub fn forget<C: Compress, D: Disk, E: Disk>(
    alloc: Global,
    me: u8,
    plan: &CorePlan,
    before: u64,
    disk: D,
    fresh: &mut E,
) -> Result<Forgotten<D>, (ForgetRefusal, D)>
    requires member { me < plan.now.cores }
    requires empty { length (E.content fresh.old) ≡ 0 }
    ensures forgets { ForgetsAs me plan.now before (D.content disk) (E.content fresh.new) result }
    ensures far { IfOk result (λ forgotten. (forgotten.horizon ≡ before) ⊎ IsNotHeld me plan.now (D.content disk) forgotten.horizon) }
    ensures durable { OnOk result (Only (E.content fresh.new) (E.images fresh.new)) }
    ensures counted { ForgetCounts D.faults (D.faults disk) (E.faults fresh.old) (E.faults fresh.new) result }
    ensures stays { OnOk result (D.content (disk_after result) ≡ D.content disk) }
    ensures no_image { AddsNone (D.images disk) (D.images (disk_after result)) }
    ensures any_moment { LeavesOnly D.moment D.images_since disk (disk_after result) (D.images disk) }
{
    one_core_of_facts();
    match NodeStore::<C, D>::open(alloc, me, plan, disk) {
        Ok(store) => {
            let horizon = horizon(store.core(), plan.start(), before);
            rewrite(alloc, me, plan, horizon, store.into_disk(), fresh)
        }
        Err((refusal, disk)) => Err((ForgetRefusal::Old(refusal), disk)),
    }
}

/// The same for a disk with a core's file by which each second before the horizon is held.
fn rewrite<D: Disk, E: Disk>(
    alloc: Global,
    me: u8,
    plan: &CorePlan,
    horizon: u64,
    disk: D,
    fresh: &mut E,
) -> Result<Forgotten<D>, (ForgetRefusal, D)>
    requires file { IsHeldFile me plan.now horizon (D.content disk) }
    requires empty { length (E.content fresh.old) ≡ 0 }
    ensures horizon { IfOk result (λ forgotten. forgotten.horizon ≡ horizon) }
    ensures forgets { (before : ℕ) → horizon ≤ before → ForgetsAs me plan.now before (D.content disk) (E.content fresh.new) result }
    ensures durable { OnOk result (Only (E.content fresh.new) (E.images fresh.new)) }
    ensures counted { ForgetCounts D.faults (D.faults disk) (E.faults fresh.old) (E.faults fresh.new) result }
    ensures stays { OnOk result (D.content (disk_after result) ≡ D.content disk) }
    ensures nothing { WroteNothing D.images D.moment D.images_since D.meter disk (disk_after result) }
{
    let mut disk = disk;
    match read_left(alloc, me, plan, horizon, &mut disk) {
        Ok(left) => match write_new(fresh, &left.text) {
            Ok(()) => Ok(Forgotten {
                disk,
                horizon,
                records: left.records,
                left: left.left,
            }),
            Err(DiskFailed) => Err((ForgetRefusal::New, disk)),
        },
        Err(refusal) => Err((ForgetRefusal::Old(OpenRefusal::from(refusal)), disk)),
    }
}

/// Writes a text to an empty disk and syncs it.
fn write_new<E: Disk>(fresh: &mut E, text: &[u8]) -> Result<(), DiskFailed>
    requires { length (E.content fresh.old) ≡ 0 }
    ensures written { OnOk result (E.content fresh.new ≡ text.now) }
    ensures durable { OnOk result (Only (E.content fresh.new) (E.images fresh.new)) }
    ensures counted { DiskCounts (E.faults fresh.old) (E.faults fresh.new) result }
{
    fresh.write_at(0, text)?;
    fresh.sync()
}
