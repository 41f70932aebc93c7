// Opening a node file.
ghost use Rattle.std.specs.Prelude.{◌≡◌, ◌<◌, ◌+◌, ◌^◌, ℕ, List, length, take, Ok, OnOk, IsErrOf};
ghost use Rattle.ksi_disk.specs.Images.{AddsNone, LeavesOnly, Only};
ghost use Rattle.ksi_disk.specs.Costs.{Affords, Spends};
ghost use Rattle.ksi_disk.specs.Gates.{place_of, reading_of, records_text};
ghost use Rattle.ksi_disk.specs.Reads.{WroteNothing};
ghost use Rattle.ksi_nodestore.specs.declared.refusal.OpenRefusal.TheVariants.{Failed};
ghost use Rattle.ksi_nodestore.specs.Headers.{header_at};
ghost use Rattle.ksi_nodestore.specs.Opens.{CountsReads, FindsAs, HasNotFailed, OpenCounts, OpensAs, StaysOpened, StaysRead, disk_after};

use crate::folding::fold_records;
use crate::found::Found;
use crate::heading::read_header;
use crate::heads::HEADER;
use crate::{NodeStore, OpenRefusal};
use ksi_corenode::laws::one_core_of_facts;
use ksi_disk::laws::{closed_gates_are_in_the_file, records_stand_one_after_the_other};
use ksi_disk::{Disk, Ending, GateLog, LogRead, read_log, settle};
use ksi_imprint::Compress;
use ksi_synod::CorePlan;
use std::alloc::Global;

/// What is in the file of core `me` of a plan, by one sync and reads.
pub(crate) fn read_file<C: Compress, D: Disk>(
    alloc: Global,
    me: u8,
    plan: &CorePlan,
    disk: &mut D,
) -> Result<Found<C>, OpenRefusal>
    requires member { me < plan.now.cores }
    ensures found { FindsAs C.image me plan.now (D.content disk.old) result }
    ensures stays { StaysRead (D.content disk.old) (D.content disk.new) result }
    ensures durable { OnOk result (Only (D.content disk.old) (D.images disk.new)) }
    ensures no_image { AddsNone (D.images disk.old) (D.images disk.new) }
    ensures any_moment { LeavesOnly D.moment D.images_since disk.old disk.new (D.images disk.old) }
    ensures counted { CountsReads (D.faults disk.old) (D.faults disk.new) result }
    ensures costs { Spends 0 1 (D.meter disk.old) (D.meter disk.new) }
    ensures sure { Affords 0 1 (D.meter disk.old) → IsErrOf result Failed → ⊥ }
{
    let len = settle(disk)?;
    read_settled(alloc, me, plan, disk, len)
}

/// The same of a disk of this many bytes, all of them there for good.
fn read_settled<C: Compress, D: Disk>(
    alloc: Global,
    me: u8,
    plan: &CorePlan,
    disk: &mut D,
    len: u64,
) -> Result<Found<C>, OpenRefusal>
    requires member { me < plan.now.cores }
    requires len { len ≡ length (D.content disk.old) }
    ensures found { FindsAs C.image me plan.now (D.content disk.old) result }
    ensures stays { StaysRead (D.content disk.old) (D.content disk.new) result }
    ensures nothing { WroteNothing D.images D.moment D.images_since D.meter disk.old disk.new }
    ensures counted { CountsReads (D.faults disk.old) (D.faults disk.new) result }
    ensures sure { Affords 0 0 (D.meter disk.old) → IsErrOf result Failed → ⊥ }
{
    records_stand_one_after_the_other();
    read_header(me, plan, disk, len)?;
    let read = read_log(alloc, disk, HEADER as u64, len)?;
    find(alloc, me, plan, read)
}

/// What was read of a file of this many bytes.
fn find<C: Compress>(
    alloc: Global,
    me: u8,
    plan: &CorePlan,
    read: LogRead,
) -> Result<Found<C>, OpenRefusal>
    requires member { me < plan.now.cores }
    requires end { 18 + length (records_text read.records) ≡ place_of read.ending }
    ensures found { (file : List ℕ) → header_at (take 18 file) ≡ Ok (record { core = me; cores = plan.now.cores; start = plan.now.start }) → length file < 2 ^ 64 →
        read.records ≡ (reading_of 18 file).records → read.ending ≡ (reading_of 18 file).ending → FindsAs C.image me plan.now file result }
    ensures calm { (faults : ℕ) → CountsReads faults faults result }
    ensures sure { IsErrOf result Failed → ⊥ }
{
    closed_gates_are_in_the_file();
    let LogRead { records, ending } = read;
    let core = fold_records(alloc, me, plan, &records, place_of(ending))?;
    match ending {
        Ending::Closed(gate) => {
            let records = records.len() as u64;
            Ok(Found {
                core,
                gate,
                records,
            })
        }
        Ending::Broken(place) => Err(OpenRefusal::Malformed(place)),
    }
}

/// Where the records end.
fn place_of(ending: Ending) -> u64
    ensures { result ≡ place_of ending }
{
    match ending {
        Ending::Closed(place) => place,
        Ending::Broken(place) => place,
    }
}

impl<C: Compress, D: Disk> NodeStore<C, D> {
    /// Opens the file of core `me` of a plan, by one sync and reads; nothing is written. The core is that of the facts in the
    /// file. A refusal hands the disk back: with the same content where it is of the file, and else with one of its images.
    ///
    /// # Errors
    ///
    /// `Failed`, and the disk's count of faults rises; `NotFormatted`; `Foreign`; `Malformed`; `NoMemory`.
    pub fn open(alloc: Global, me: u8, plan: &CorePlan, disk: D) -> Result<Self, (OpenRefusal, D)>
        requires member { me < plan.now.cores }
        ensures opens { OpensAs C.image D.content D.images me plan.now (D.content disk) result }
        ensures stays { StaysOpened D.content (D.content disk) result }
        ensures no_image { AddsNone (D.images disk) (D.images (disk_after result)) }
        ensures any_moment { LeavesOnly D.moment D.images_since disk (disk_after result) (D.images disk) }
        ensures counted { OpenCounts (D.faults disk) D.faults result }
        ensures costs { Spends 0 1 (D.meter disk) (D.meter (disk_after result)) }
        ensures sure { Affords 0 1 (D.meter disk) → HasNotFailed result }
    {
        one_core_of_facts();
        let _ = plan.cores();
        let mut disk = disk;
        match read_file(alloc, me, plan, &mut disk) {
            Ok(found) => {
                let Found {
                    core,
                    gate,
                    records,
                } = found;
                let log = GateLog::new(disk, HEADER as u64, gate);
                Ok(NodeStore {
                    alloc,
                    core,
                    log,
                    records,
                })
            }
            Err(refusal) => Err((refusal, disk)),
        }
    }
}
