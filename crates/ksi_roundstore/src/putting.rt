// What is left of records is put into a new file.
ghost use Rattle.std.specs.Prelude.{◌≡◌, ◌<◌, ◌≤◌, ◌^◌, ◌++◌, ◌∷◌, ◌&&◌, [], length, nat_lt, IfOk};
ghost use Rattle.std.specs.Ordering.{nat_cmp};
ghost use Rattle.std.specs.BTreeSet.{contains};
ghost use Rattle.ksi_disk.specs.Gates.{record_text};
ghost use Rattle.ksi_roundstore.specs.Kinds.{IsPut, IsPutAll, IsPutOf, records_stay, stays};

use crate::answered::is_forgotten;
use crate::kind::Kind;
use crate::kinds::kind_of;
use crate::last_line::last_line;
use crate::stays::Stays;
use ksi_disk::Records;
use ksi_imprint::NoMemory;
use ksi_schedule::Plan;
use std::alloc::Global;
use std::collections::BTreeSet;

const OPEN: u8 = 1;

/// Puts what is left of these records behind a text, and counts the records put.
pub(crate) fn put_all(
    alloc: Global,
    plan: &Plan,
    me: u32,
    before: u64,
    answered: &BTreeSet<u64>,
    records: &Records,
    text: &mut Vec<u8>,
) -> Result<u64, NoMemory>
    ensures { IfOk result (IsPutAll plan.now me (λ t. nat_lt t before && contains nat_cmp answered.now t) records.now (length records.now) text.old.items text.new.items) }
{
    let mut count = 0;
    'putting: for k in 0..records.len() {
        let more = put_left(alloc, plan, me, before, answered, records.get(k), text)?;
        count += more;
    }
    Ok(count)
}

/// Puts what is left of one.
fn put_left(
    alloc: Global,
    plan: &Plan,
    me: u32,
    before: u64,
    answered: &BTreeSet<u64>,
    content: &[u8],
    text: &mut Vec<u8>,
) -> Result<u64, NoMemory>
    ensures { IfOk result (IsPutOf plan.now me (λ t. nat_lt t before && contains nat_cmp answered.now t) content.now text.old.items text.new.items) }
{
    let kind = kind_of(alloc, plan, me, content)?;
    let stays = what_stays(before, answered, kind);
    put_stays(text, stays, content, last_line(content))
}

/// What stays of a record of this kind.
fn what_stays(before: u64, answered: &BTreeSet<u64>, kind: Kind) -> Stays
    ensures { result ≡ stays (λ t. nat_lt t before && contains nat_cmp answered.now t) kind }
{
    match kind {
        Kind::Closed(second) => {
            if is_forgotten(before, answered, second) {
                Stays::LastLine
            } else {
                Stays::Whole
            }
        }
        Kind::Answered(second) => {
            if is_forgotten(before, answered, second) {
                Stays::Nothing
            } else {
                Stays::Whole
            }
        }
        Kind::Other => Stays::Whole,
    }
}

/// Puts what stays of a record: its content, its last line, or nothing.
fn put_stays(text: &mut Vec<u8>, stays: Stays, content: &[u8], last: &[u8]) -> Result<u64, NoMemory>
    ensures { IfOk result (IsPut (records_stay stays content.now last.now) text.old.items text.new.items) }
{
    match stays {
        Stays::Whole => put_one(text, content),
        Stays::LastLine => put_one(text, last),
        Stays::Nothing => Ok(0),
    }
}

/// Puts one record.
fn put_one(text: &mut Vec<u8>, content: &[u8]) -> Result<u64, NoMemory>
    ensures { IfOk result (IsPut (content.now ∷ []) text.old.items text.new.items) }
{
    put_record(text, content)
}

/// Puts a record of this content.
///
/// # Errors
/// `NoMemory`, also where it has 2^32 bytes or more.
fn put_record(text: &mut Vec<u8>, content: &[u8]) -> Result<u64, NoMemory>
    ensures one { IfOk result (λ count. count ≡ 1) }
    ensures text { IfOk result (λ count. text.new.items ≡ text.old.items ++ (record_text content.now ++ [])) }
    ensures small { IfOk result (λ count. length content.now < 2 ^ 32) }
{
    if content.len() >= 1 << 32 {
        return Err(NoMemory);
    }
    let count = content.len() as u32;
    text.push(OPEN)?;
    text.extend_from_slice(&count.to_be_bytes())?;
    text.extend_from_slice(content)?;
    Ok(1)
}
