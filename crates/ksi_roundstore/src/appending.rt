// A fact is appended to the file of an aggregator.
ghost use Rattle.std.specs.Prelude.{◌≡◌, true, OnErr, OnOk, IsOk};
ghost use Rattle.ksi_disk.specs.Images.{LeavesOnly};
ghost use Rattle.ksi_disk.specs.Costs.{DiskCounts};
ghost use Rattle.ksi_disk.specs.Logs.{IsSettled};
ghost use Rattle.ksi_roundstore.specs.Takes.{AffordsFor, HasEither, HasStored, IsReady, SpendsFor};

use ksi_aggregator::Fact;
use ksi_disk::{Disk, DiskFailed, GateLog, Record};

/// Appends the record of a fact, if there is one.
pub(crate) fn keep<D: Disk>(
    log: &mut GateLog<D>,
    record_: Option<Record>,
    fact: &Option<Fact>,
) -> Result<(), DiskFailed>
    requires settled { IsSettled D.content D.images log.old }
    requires from { log.old.from ≡ 20 }
    requires ready { IsReady record_ fact.now }
    ensures stored { OnOk result (HasStored D.content D.images fact.now log.old log.new) }
    ensures any_moment { LeavesOnly D.moment D.images_since log.old.disk log.new.disk (HasEither (D.content log.old.disk) fact.now) }
    ensures spent { OnErr result (log.new.is_spent ≡ true) }
    ensures counted { DiskCounts (D.faults log.old.disk) (D.faults log.new.disk) result }
    ensures costs { SpendsFor fact.now (D.meter log.old.disk) (D.meter log.new.disk) }
    ensures sure { AffordsFor fact.now (D.meter log.old.disk) → IsOk result }
{
    match fact {
        None => Ok(()),
        Some(_) => match record_ {
            Some(record_) => log.append(record_),
            None => unreachable!(),
        },
    }
}
