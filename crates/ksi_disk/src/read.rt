ghost use Rattle.std.specs.Prelude.{◌≡◌, ◌≤◌, ◌<◌, ◌+◌, ◌^◌, [], ◌∷◌, ◌++◌, if◌then◌else◌, take, drop, length, IfOk, OnOk, IsErrOf, IsTrue};
ghost use Rattle.ksi_disk.specs.Costs.{Affords};
ghost use Rattle.ksi_disk.specs.declared.front.Front.TheVariants as front;
ghost use Rattle.ksi_disk.specs.Gates.{front_at, is_whole, stated, reading_at, reading_of};
ghost use Rattle.ksi_disk.specs.Reads.{IfWanting, IsStep, ReadCounts, WroteNothing};

use crate::front::{Front, Step};
use crate::parts::{read_content, read_gate, read_length};
use crate::{Disk, Ending, ReadRefusal, Records};
use ksi_imprint::{Bytes, NoMemory};
use std::alloc::Global;

const OPEN: u8 = 1;

/// The records of a file after its header, up to the first commit byte that is not open, and how they end there.
#[derive(Drop)]
pub struct LogRead {
    pub records: Records,
    pub ending: Ending,
}

/// Reads the records of a file of a stated size, after a header of a stated length. The bytes after the first gate that
/// is not open are not read, and nothing is written.
///
/// # Errors
///
/// `Failed`, and the disk's count of faults rises. `NoMemory` if memory ran out: only if the file has a record.
pub fn read_log<D: Disk>(
    alloc: Global,
    disk: &mut D,
    from: u64,
    len: u64,
) -> Result<LogRead, ReadRefusal>
    requires len { len ≡ length (D.content disk.old) }
    requires from { from ≤ len }
    ensures records { IfOk result (λ read. read.records ≡ (reading_of from (D.content disk.old)).records) }
    ensures ending { IfOk result (λ read. read.ending ≡ (reading_of from (D.content disk.old)).ending) }
    ensures stays { OnOk result (D.content disk.new ≡ D.content disk.old) }
    ensures nothing { WroteNothing D.images D.moment D.images_since D.meter disk.old disk.new }
    ensures counted { ReadCounts (D.faults disk.old) (D.faults disk.new) result }
    ensures sure { Affords 0 0 (D.meter disk.old) → IsErrOf result ReadRefusal.Failed → ⊥ }
    ensures wanting { IfWanting result (0 < length (reading_of from (D.content disk.old)).records) }
{
    let mut records = Records::new(alloc);
    let mut place = from;
    'reading: loop {
        match read_step(alloc, disk, place, len, &mut records)? {
            Step::Next(next) => place = next,
            Step::End(ending) => return Ok(LogRead { records, ending }),
        }
    }
}

/// Reads on by one record, or finds the end.
fn read_step<D: Disk>(
    alloc: Global,
    disk: &mut D,
    place: u64,
    len: u64,
    records: &mut Records,
) -> Result<Step, ReadRefusal>
    requires len { len ≡ length (D.content disk.old) }
    requires place { place ≤ len }
    ensures step { IfOk result (λ step. (D.content disk.new ≡ D.content disk.old) × IsStep (D.content disk.old) place records.old records.new step) }
    ensures nothing { WroteNothing D.images D.moment D.images_since D.meter disk.old disk.new }
    ensures counted { ReadCounts (D.faults disk.old) (D.faults disk.new) result }
    ensures sure { Affords 0 0 (D.meter disk.old) → IsErrOf result ReadRefusal.Failed → ⊥ }
    ensures wanting { IfWanting result (0 < length (reading_at place (drop place (D.content disk.old))).records) }
{
    match read_front(alloc, disk, place, len)? {
        Front::Closed => Ok(Step::End(Ending::Closed(place))),
        Front::Broken => Ok(Step::End(Ending::Broken(place))),
        Front::Whole(content) => {
            let next = place + (5 + content.as_slice().len() as u64);
            keep(records, content)?;
            Ok(Step::Next(next))
        }
    }
}

/// Appends a record.
fn keep(records: &mut Records, content: Bytes) -> Result<(), NoMemory>
    ensures { OnOk result (records.new ≡ records.old ++ content ∷ []) }
{
    records.push(content.as_slice())?;
    Ok(())
}

/// The entry at a place.
fn read_front<D: Disk>(
    alloc: Global,
    disk: &mut D,
    place: u64,
    len: u64,
) -> Result<Front, ReadRefusal>
    requires len { len ≡ length (D.content disk.old) }
    requires place { place ≤ len }
    ensures front { IfOk result (λ found. found ≡ front_at (drop place (D.content disk.old))) }
    ensures stays { OnOk result (D.content disk.new ≡ D.content disk.old) }
    ensures nothing { WroteNothing D.images D.moment D.images_since D.meter disk.old disk.new }
    ensures counted { ReadCounts (D.faults disk.old) (D.faults disk.new) result }
    ensures sure { Affords 0 0 (D.meter disk.old) → IsErrOf result ReadRefusal.Failed → ⊥ }
    ensures wanting { IfWanting result (0 < length (reading_at place (drop place (D.content disk.old))).records) }
{
    if place == len {
        return Ok(Front::Broken);
    }
    if read_gate(disk, place)? != OPEN {
        return Ok(Front::Closed);
    }
    read_open(alloc, disk, place + 1, len)
}

/// The part after an open gate.
fn read_open<D: Disk>(
    alloc: Global,
    disk: &mut D,
    place: u64,
    len: u64,
) -> Result<Front, ReadRefusal>
    requires len { len ≡ length (D.content disk.old) }
    requires place { place ≤ len }
    ensures front { IfOk result (λ found. let rest = drop place (D.content disk.old) in found ≡ (if is_whole rest then front.Whole (take (stated rest) (drop 4 rest)) else front.Broken)) }
    ensures stays { OnOk result (D.content disk.new ≡ D.content disk.old) }
    ensures nothing { WroteNothing D.images D.moment D.images_since D.meter disk.old disk.new }
    ensures counted { ReadCounts (D.faults disk.old) (D.faults disk.new) result }
    ensures sure { Affords 0 0 (D.meter disk.old) → IsErrOf result ReadRefusal.Failed → ⊥ }
    ensures wanting { IfWanting result (IsTrue (is_whole (drop place (D.content disk.old)))) }
{
    if len - place < 4 {
        return Ok(Front::Broken);
    }
    let count = read_length(disk, place)?;
    if len - place - 4 < u64::from(count) {
        return Ok(Front::Broken);
    }
    read_content(alloc, disk, place + 4, count)
}
