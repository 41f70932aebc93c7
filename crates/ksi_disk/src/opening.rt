ghost use Rattle.std.specs.Prelude.{◌≡◌, ◌≤◌, length};
ghost use Rattle.ksi_disk.specs.Images.{AddsNone, LeavesOnly, Only};
ghost use Rattle.ksi_disk.specs.Costs.{Affords, Spends};
ghost use Rattle.ksi_disk.specs.Gates.{reading_of};
ghost use Rattle.ksi_disk.specs.Opens.{HasNotFailed, OpenCounts, OpensAs, disk_after};

use crate::opened::{OpenRefusal, Opened};
use crate::{Disk, DiskFailed, Ending, GateLog, LogRead, ReadRefusal, laws, read_log, settle};
use std::alloc::Global;

/// Opens the log of a file with a header of a stated length: one sync, and reads up to the first gate that is not open.
/// Nothing is written. A refusal hands the disk back.
///
/// # Errors
///
/// `Failed`, and the disk's count of faults rises; `NoMemory`, only where the file has a record; `Broken` where the records
/// do not end at a closed gate.
pub fn open_log<D: Disk>(alloc: Global, disk: D, from: u64) -> Result<Opened<D>, (OpenRefusal, D)>
    ensures opens { OpensAs D.content D.images from (D.content disk) result }
    ensures no_image { AddsNone (D.images disk) (D.images (disk_after result)) }
    ensures any_moment { LeavesOnly D.moment D.images_since disk (disk_after result) (D.images disk) }
    ensures counted { OpenCounts (D.faults disk) D.faults result }
    ensures costs { Spends 0 1 (D.meter disk) (D.meter (disk_after result)) }
    ensures sure { Affords 0 1 (D.meter disk) → HasNotFailed result }
{
    let mut disk = disk;
    match settle(&mut disk) {
        Ok(len) if from <= len => open_settled(alloc, disk, from, len),
        Ok(_) => Err((OpenRefusal::Broken(from), disk)),
        Err(DiskFailed) => Err((OpenRefusal::Failed, disk)),
    }
}

/// The same of a disk of this many bytes, all of them there for good.
fn open_settled<D: Disk>(
    alloc: Global,
    disk: D,
    from: u64,
    len: u64,
) -> Result<Opened<D>, (OpenRefusal, D)>
    requires durable { Only (D.content disk) (D.images disk) }
    requires len { len ≡ length (D.content disk) }
    requires from { from ≤ len }
    ensures opens { OpensAs D.content D.images from (D.content disk) result }
    ensures no_image { AddsNone (D.images disk) (D.images (disk_after result)) }
    ensures any_moment { LeavesOnly D.moment D.images_since disk (disk_after result) (D.images disk) }
    ensures counted { OpenCounts (D.faults disk) D.faults result }
    ensures costs { D.meter (disk_after result) ≡ D.meter disk }
    ensures sure { Affords 0 0 (D.meter disk) → HasNotFailed result }
{
    let mut disk = disk;
    match read_log(alloc, &mut disk, from, len) {
        Ok(read) => stand(disk, from, len, read),
        Err(ReadRefusal::Failed) => Err((OpenRefusal::Failed, disk)),
        Err(ReadRefusal::NoMemory) => Err((OpenRefusal::NoMemory, disk)),
    }
}

/// The same of a file that was read.
fn stand<D: Disk>(
    disk: D,
    from: u64,
    len: u64,
    read: LogRead,
) -> Result<Opened<D>, (OpenRefusal, D)>
    requires durable { Only (D.content disk) (D.images disk) }
    requires len { len ≡ length (D.content disk) }
    requires records { read.records ≡ (reading_of from (D.content disk)).records }
    requires ending { read.ending ≡ (reading_of from (D.content disk)).ending }
    ensures opens { OpensAs D.content D.images from (D.content disk) result }
    ensures same { disk_after result ≡ disk }
    ensures sure { HasNotFailed result }
{
    let LogRead { records, ending } = read;
    match ending {
        Ending::Closed(gate) => {
            laws::closed_gates_are_in_the_file();
            let log = GateLog::new(disk, from, gate);
            Ok(Opened { log, records })
        }
        Ending::Broken(place) => Err((OpenRefusal::Broken(place), disk)),
    }
}
