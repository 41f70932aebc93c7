// What is left of an aggregator's file is read.
ghost use Rattle.std.specs.Prelude.{◌≡◌, ◌≤◌, ◌∷◌, ◌++◌, [], ℕ, List, length, take, IfOk, OnOk};
ghost use Rattle.ksi_aggregator.specs.declared.fact.Fact.{Fact};
ghost use Rattle.ksi_disk.specs.Costs.{DiskCounts};
ghost use Rattle.ksi_disk.specs.Reads.{ReadCounts, WroteNothing};
ghost use Rattle.ksi_roundstore.specs.Stores.{IsFileOf};
ghost use Rattle.ksi_roundstore.specs.StoreState.{records_in};
ghost use Rattle.ksi_roundstore.specs.Forgets.{LeavesText};

use crate::answered::answered_in;
use crate::heads::HEADER;
use crate::laws::facts_left_are_lawful;
use crate::putting::put_all;
use ksi_disk::laws::records_are_read_again;
use ksi_disk::{Disk, DiskFailed, ReadRefusal, Records, read_log};
use ksi_imprint::NoMemory;
use ksi_schedule::Plan;
use std::alloc::Global;

/// A new file's text, how many records the old file has, and how many this one has.
#[derive(Drop)]
pub(crate) struct Left {
    pub text: Vec<u8>,
    pub records: u64,
    pub left: u64,
}

/// Reads the file of an aggregator, and makes the text of what is left of it.
#[tactic(auto, using(crate::proofs::NewFile::long_enough))]
pub(crate) fn read_left<D: Disk>(
    alloc: Global,
    me: u32,
    plan: &Plan,
    before: u64,
    disk: &mut D,
) -> Result<Left, ReadRefusal>
    requires file { (facts : List Fact) × IsFileOf me plan.now facts (D.content disk.old) }
    ensures left { IfOk result (LeavesText me plan.now before (D.content disk.old)) }
    ensures counted { ReadCounts (D.faults disk.old) (D.faults disk.new) result }
    ensures stays { OnOk result (D.content disk.new ≡ D.content disk.old) }
    ensures nothing { WroteNothing D.images D.moment D.images_since D.meter disk.old disk.new }
{
    let len = disk.len()?;
    let header = header_of(disk)?;
    let log = read_log(alloc, disk, HEADER as u64, len)?;
    let left = text_left(alloc, me, plan, before, &header, &log.records)?;
    Ok(left)
}

/// The header of a file.
fn header_of<D: Disk>(disk: &mut D) -> Result<[u8; 20], DiskFailed>
    requires { 20 ≤ length (D.content disk.old) }
    ensures front { IfOk result (λ header. header ≡ take 20 (D.content disk.old)) }
    ensures counted { DiskCounts (D.faults disk.old) (D.faults disk.new) result }
    ensures stays { OnOk result (D.content disk.new ≡ D.content disk.old) }
    ensures nothing { WroteNothing D.images D.moment D.images_since D.meter disk.old disk.new }
{
    let mut header = [0; 20];
    disk.read(0, &mut header)?;
    Ok(header)
}

/// The text of what is left of a file of this header and these records.
fn text_left(
    alloc: Global,
    me: u32,
    plan: &Plan,
    before: u64,
    header: &[u8],
    records: &Records,
) -> Result<Left, NoMemory>
    requires header { length header.now ≡ 20 }
    ensures { IfOk result (λ left. (facts : List Fact) (file : List ℕ) → IsFileOf me plan.now facts file → header.now ≡ take 20 file → records.now ≡ records_in file → LeavesText me plan.now before file left) }
{
    records_are_read_again();
    facts_left_are_lawful();
    let answered = answered_in(alloc, plan, me, records)?;
    let mut text = text_of(alloc, header)?;
    let left = put_all(alloc, plan, me, before, &answered, records, &mut text)?;
    close(&mut text)?;
    let records = count_of(records);
    Ok(Left {
        text,
        records,
        left,
    })
}

fn text_of(alloc: Global, header: &[u8]) -> Result<Vec<u8>, NoMemory>
    ensures { IfOk result (λ text. text.items ≡ header.now) }
{
    let mut text = Vec::new(alloc);
    text.extend_from_slice(header)?;
    Ok(text)
}

/// Puts a closed gate behind a text.
fn close(text: &mut Vec<u8>) -> Result<(), NoMemory>
    ensures { OnOk result (text.new.items ≡ text.old.items ++ 0 ∷ []) }
{
    text.push(0)?;
    Ok(())
}

fn count_of(records: &Records) -> u64
    ensures { result ≡ length records.now }
{
    records.len() as u64
}
