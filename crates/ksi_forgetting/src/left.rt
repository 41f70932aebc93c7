//! The compacted text of a core's file.
ghost use Rattle.std.specs.Prelude.{◌≡◌, ◌≤◌, ◌∷◌, ◌++◌, [], ℕ, List, length, take, IfOk, OnOk};
ghost use Rattle.ksi_corenode.specs.declared.fact.Fact.{Fact};
ghost use Rattle.ksi_disk.specs.Costs.{DiskCounts};
ghost use Rattle.ksi_disk.specs.Reads.{ReadCounts, WroteNothing};
ghost use Rattle.ksi_nodestore.specs.Stores.{IsFileOf};
ghost use Rattle.ksi_disk.specs.Gates.{reading_of};
ghost use Rattle.ksi_laws_forgetting.specs.Left.{AreHeld};
ghost use Rattle.ksi_forgetting.specs.Puts.{is_early};
ghost use Rattle.ksi_forgetting.specs.Forgets.{IsHeldFile, LeavesText};

use crate::putting::put_all;
use ksi_disk::laws::records_are_read_again;
use ksi_disk::{Disk, DiskFailed, ReadRefusal, Records, read_log};
use ksi_imprint::NoMemory;
use ksi_laws_forgetting::cores::facts_left_are_valid;
use ksi_nodestore::HEADER;
use ksi_synod::CorePlan;
use std::alloc::Global;

/// The text of the new file, the number of records in the old file, and that in the new one.
#[derive(Drop)]
pub(crate) struct Left {
    pub text: Vec<u8>,
    pub records: u64,
    pub left: u64,
}

/// Reads the file of a core, and returns the compacted text.
#[tactic(auto, using(crate::proofs::NewFile::long_enough))]
pub(crate) fn read_left<D: Disk>(
    alloc: Global,
    me: u8,
    plan: &CorePlan,
    horizon: u64,
    disk: &mut D,
) -> Result<Left, ReadRefusal>
    requires file { IsHeldFile me plan.now horizon (D.content disk.old) }
    ensures left { IfOk result (LeavesText me plan.now horizon (D.content disk.old)) }
    ensures counted { ReadCounts (D.faults disk.old) (D.faults disk.new) result }
    ensures stays { OnOk result (D.content disk.new ≡ D.content disk.old) }
    ensures nothing { WroteNothing D.images D.moment D.images_since D.meter disk.old disk.new }
{
    let len = disk.len()?;
    let header = header_of(disk)?;
    let log = read_log(alloc, disk, HEADER as u64, len)?;
    let left = text_left(alloc, me, plan, horizon, &header, &log.records)?;
    Ok(left)
}

/// The header of a file.
fn header_of<D: Disk>(disk: &mut D) -> Result<[u8; 18], DiskFailed>
    requires { 18 ≤ length (D.content disk.old) }
    ensures front { IfOk result (λ header. header ≡ take 18 (D.content disk.old)) }
    ensures counted { DiskCounts (D.faults disk.old) (D.faults disk.new) result }
    ensures stays { OnOk result (D.content disk.new ≡ D.content disk.old) }
    ensures nothing { WroteNothing D.images D.moment D.images_since D.meter disk.old disk.new }
{
    let mut header = [0; 18];
    disk.read(0, &mut header)?;
    Ok(header)
}

/// The compacted text of a file with this header and these records.
fn text_left(
    alloc: Global,
    _me: u8,
    plan: &CorePlan,
    horizon: u64,
    header: &[u8],
    records: &Records,
) -> Result<Left, NoMemory>
    requires header { length header.now ≡ 18 }
    ensures { IfOk result (λ left. (facts : List Fact) (file : List ℕ) → IsFileOf _me plan.now facts file → AreHeld (is_early plan.now.start horizon) facts → header.now ≡ take 18 file → records.now ≡ (reading_of 18 file).records → LeavesText _me plan.now horizon file left) }
{
    records_are_read_again();
    facts_left_are_valid();
    let mut text = text_of(alloc, header)?;
    let left = put_all(alloc, plan.start(), horizon, records, &mut text)?;
    close(&mut text)?;
    let records = count_of(records);
    Ok(Left {
        text,
        records,
        left,
    })
}

fn text_of(alloc: Global, header: &[u8]) -> Result<Vec<u8>, NoMemory>
    ensures { IfOk result (λ text. text.items ≡ header.now) }
{
    let mut text = Vec::new(alloc);
    text.extend_from_slice(header)?;
    Ok(text)
}

/// Appends a closed commit byte to a text.
fn close(text: &mut Vec<u8>) -> Result<(), NoMemory>
    ensures { OnOk result (text.new.items ≡ text.old.items ++ 0 ∷ []) }
{
    text.push(0)?;
    Ok(())
}

fn count_of(records: &Records) -> u64
    ensures { result ≡ length records.now }
{
    records.len() as u64
}
