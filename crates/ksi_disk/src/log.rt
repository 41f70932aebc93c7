ghost use Rattle.std.specs.Prelude.{◌≡◌, ◌<◌, ◌+◌, ◌^◌, true, [], ◌∷◌, ◌++◌, length, OnOk, OnErr, IsOk};
ghost use Rattle.ksi_disk.specs.Images.{laid_over, LeavesOnly, Only};
ghost use Rattle.ksi_disk.specs.Costs.{Affords, DiskCounts, Spends};
ghost use Rattle.ksi_disk.specs.declared.ending.Ending.TheVariants.{Closed};
ghost use Rattle.ksi_disk.specs.Gates.{record_text, reading_of};
ghost use Rattle.ksi_disk.specs.Logs.{GatesStand, IsAfter, IsBeforeOrAfter, IsSettled};

use crate::appending::write_behind;
use crate::{Disk, DiskFailed, Record};

/// A file of records on a disk: its header's length, the place of the closed gate behind its records, and whether a call of it
/// has failed. Then it is spent: the file is to be opened again.
#[derive(Drop)]
pub struct GateLog<D: Disk> {
    pub disk: D,
    pub from: u64,
    pub gate: u64,
    pub is_spent: bool,
}

impl<D: Disk> GateLog<D> {
    /// The log of a file whose records end at this closed gate, all of it on the disk.
    pub fn new(disk: D, from: u64, gate: u64) -> Self
        requires durable { Only (D.content disk) (D.images disk) }
        requires standing { (reading_of from (D.content disk)).ending ≡ Closed gate }
        requires within { gate + 1 < 2 ^ 64 }
        ensures disk { result.disk ≡ disk }
        ensures from { result.from ≡ from }
        ensures settled { IsSettled D.content D.images result }
    {
        GateLog {
            disk,
            from,
            gate,
            is_spent: false,
        }
    }

    /// Appends a record, by four calls of the disk: it is written with a closed gate behind the standing gate, synced, and once
    /// it is on the disk for good the standing gate is opened, and synced. At Ok it is acknowledged: from then on each image
    /// has it.
    ///
    /// # Errors
    ///
    /// `DiskFailed`, and the disk's count of faults rises. The log is spent, and each image has the records before, with this
    /// one or without.
    pub fn append(&mut self, record_: Record) -> Result<(), DiskFailed>
        requires settled { IsSettled D.content D.images self.old }
        requires size { length record_.content < 2 ^ 32 }
        ensures acknowledged { OnOk result (IsSettled D.content D.images self.new × IsAfter self.old.from (D.content self.old.disk) record_.content (D.content self.new.disk)) }
        ensures written { OnOk result (D.content self.new.disk ≡ laid_over (D.content self.old.disk) self.old.gate (record_text record_.content ++ 0 ∷ [])) }
        ensures from { self.new.from ≡ self.old.from }
        ensures spent { OnErr result (self.new.is_spent ≡ true) }
        ensures any_moment { LeavesOnly D.moment D.images_since self.old.disk self.new.disk (IsBeforeOrAfter self.old.from (D.content self.old.disk) record_.content) }
        ensures gates { GatesStand self.old.gate (D.content self.old.disk) record_.content (D.images self.new.disk) }
        ensures counted { DiskCounts (D.faults self.old.disk) (D.faults self.new.disk) result }
        ensures costs { Spends (length record_.content + 6) 4 (D.meter self.old.disk) (D.meter self.new.disk) }
        ensures sure { Affords (length record_.content + 6) 4 (D.meter self.old.disk) → IsOk result }
    {
        let text = record_.into_text();
        match write_behind(&mut self.disk, self.gate, &text) {
            Ok(()) => {
                self.gate += text.len() as u64;
                Ok(())
            }
            Err(DiskFailed) => {
                self.is_spent = true;
                Err(DiskFailed)
            }
        }
    }

    /// The disk of the log.
    pub fn into_disk(self) -> D
        ensures { result ≡ self.disk }
    {
        self.disk
    }
}
