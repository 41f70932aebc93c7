ghost use Rattle.std.specs.Prelude.{◌≡◌, ◌<◌, List, length, IsOk, OnOk};
ghost use Rattle.ksi_disk.specs.Images.{AddsNone, LeavesOnly, Only};
ghost use Rattle.ksi_aggregator.specs.declared.fact.Fact.{Fact};
ghost use Rattle.ksi_disk.specs.Reads.{WroteNothing};
ghost use Rattle.ksi_roundstore.specs.Stores.{IsFileOf};
ghost use Rattle.ksi_disk.specs.Costs.{Affords, DiskCounts, Spends};
ghost use Rattle.ksi_roundstore.specs.Forgets.{ForgetCounts, ForgetsAs, NewCosts, disk_after};

use crate::left::read_left;
use crate::{ForgetRefusal, Forgotten, OpenRefusal, RoundStore};
use ksi_disk::{Disk, DiskFailed};
use ksi_imprint::Compress;
use ksi_schedule::Plan;
use std::alloc::Global;

/// Makes an empty disk the file of what is left of an aggregator's file, when each round of a second before this one is
/// forgotten that has a response. The old disk is opened as `RoundStore::open` opens it, by one sync, and read again; nothing is
/// written to it. The new one takes one write and one sync.
///
/// # Errors
///
/// `Old`, with the refusal of the old file: with `Failed` the old disk's count of faults rises. `New`, and the new disk's count
/// of faults rises. Each count stays else.
pub fn forget<C: Compress, D: Disk, E: Disk>(
    alloc: Global,
    me: u32,
    plan: &Plan,
    before: u64,
    disk: D,
    fresh: &mut E,
) -> Result<Forgotten<D>, (ForgetRefusal, D)>
    requires member { me < length plan.now.parents }
    requires empty { length (E.content fresh.old) ≡ 0 }
    ensures forgets { ForgetsAs me plan.now before (D.content disk) (E.content fresh.new) result }
    ensures durable { OnOk result (Only (E.content fresh.new) (E.images fresh.new)) }
    ensures counted { ForgetCounts D.faults (D.faults disk) (E.faults fresh.old) (E.faults fresh.new) result }
    ensures stays { OnOk result (D.content (disk_after result) ≡ D.content disk) }
    ensures no_image { AddsNone (D.images disk) (D.images (disk_after result)) }
    ensures any_moment { LeavesOnly D.moment D.images_since disk (disk_after result) (D.images disk) }
    ensures costs { Spends 0 1 (D.meter disk) (D.meter (disk_after result)) }
    ensures new_costs { NewCosts (E.meter fresh.old) (E.meter fresh.new) (E.content fresh.new) result }
{
    match RoundStore::<C, D>::open(alloc, me, plan, disk) {
        Ok(store) => rewrite(alloc, me, plan, before, store.into_disk(), fresh),
        Err((refusal, disk)) => Err((ForgetRefusal::Old(refusal), disk)),
    }
}

/// The same of a disk with an aggregator's file.
fn rewrite<D: Disk, E: Disk>(
    alloc: Global,
    me: u32,
    plan: &Plan,
    before: u64,
    disk: D,
    fresh: &mut E,
) -> Result<Forgotten<D>, (ForgetRefusal, D)>
    requires file { (facts : List Fact) × IsFileOf me plan.now facts (D.content disk) }
    requires empty { length (E.content fresh.old) ≡ 0 }
    ensures forgets { ForgetsAs me plan.now before (D.content disk) (E.content fresh.new) result }
    ensures durable { OnOk result (Only (E.content fresh.new) (E.images fresh.new)) }
    ensures counted { ForgetCounts D.faults (D.faults disk) (E.faults fresh.old) (E.faults fresh.new) result }
    ensures stays { OnOk result (D.content (disk_after result) ≡ D.content disk) }
    ensures nothing { WroteNothing D.images D.moment D.images_since D.meter disk (disk_after result) }
    ensures new_costs { NewCosts (E.meter fresh.old) (E.meter fresh.new) (E.content fresh.new) result }
{
    let mut disk = disk;
    match read_left(alloc, me, plan, before, &mut disk) {
        Ok(left) => match write_new(fresh, &left.text) {
            Ok(()) => Ok(Forgotten {
                disk,
                records: left.records,
                left: left.left,
            }),
            Err(DiskFailed) => Err((ForgetRefusal::New, disk)),
        },
        Err(refusal) => Err((ForgetRefusal::Old(OpenRefusal::from(refusal)), disk)),
    }
}

/// Writes a text to an empty disk, for good.
fn write_new<E: Disk>(fresh: &mut E, text: &[u8]) -> Result<(), DiskFailed>
    requires { length (E.content fresh.old) ≡ 0 }
    ensures written { OnOk result (E.content fresh.new ≡ text.now) }
    ensures durable { OnOk result (Only (E.content fresh.new) (E.images fresh.new)) }
    ensures counted { DiskCounts (E.faults fresh.old) (E.faults fresh.new) result }
    ensures costs { Spends (length text.now) 2 (E.meter fresh.old) (E.meter fresh.new) }
    ensures sure { Affords (length text.now) 2 (E.meter fresh.old) → IsOk result }
{
    fresh.write_at(0, text)?;
    fresh.sync()
}
