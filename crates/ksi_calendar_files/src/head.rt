ghost use Rattle.std.specs.Prelude.{◌≡◌, ◌≤◌, ◌<◌, ◌+◌, ◌^◌, length, IfOk};
ghost use Rattle.ksi_imprint.specs.Reading.{imprint_at};
ghost use Rattle.ksi_calendar_files.specs.File.{IsBounded};
ghost use Rattle.ksi_calendar_files.specs.Reading.{bounded, head_after, head_at, head_of, numbers_at};

use crate::fault::FileFault;
use crate::file::FILE_SECONDS;
use crate::numbers::{number4, number8};
use ksi_imprint::Imprint;

/// What a calendar file begins with.
const MAGIC: &[u8] = b"KSIROOT1";

/// How many bytes the head has.
pub(crate) const HEAD: usize = 61;

/// The head of a calendar file.
#[derive(Clone, Copy)]
pub(crate) struct Head {
    pub(crate) plan: Imprint,
    pub(crate) start: u64,
    pub(crate) number: u64,
    pub(crate) count: u32,
}

/// The head that the bytes begin with.
#[tactic(auto, unfolding(crate::specs::Reading::head_at))]
pub(crate) fn read_head(bytes: &[u8]) -> Result<Head, FileFault>
    ensures read { result ≡ head_at bytes.now }
    ensures size { IfOk result (λ head. 61 ≤ length bytes.now) }
    ensures bounded { IfOk result (λ head. IsBounded head.start head.number head.count) }
{
    if bytes.len() < MAGIC.len() {
        return Err(FileFault::Magic);
    }
    let (front, rest) = bytes.split_at(8);
    head_after(front, rest)
}

/// The head after its first eight bytes.
fn head_after(front: &[u8], rest: &[u8]) -> Result<Head, FileFault>
    requires { length rest.now + 8 < 2 ^ 64 }
    ensures read { result ≡ head_after front.now rest.now }
    ensures size { IfOk result (λ head. 53 ≤ length rest.now) }
    ensures bounded { IfOk result (λ head. IsBounded head.start head.number head.count) }
{
    if front != MAGIC {
        return Err(FileFault::Magic);
    }
    if rest.len() < HEAD - 8 {
        return Err(FileFault::Size {
            needed: HEAD,
            given: 8 + rest.len(),
        });
    }
    let (plan, numbers) = rest.split_at(33);
    head_of_numbers(plan, numbers)
}

/// The head of a digest and of three numbers.
fn head_of_numbers(plan: &[u8], bytes: &[u8]) -> Result<Head, FileFault>
    requires { 20 ≤ length bytes.now }
    ensures read { result ≡ numbers_at (imprint_at plan.now) bytes.now }
    ensures bounded { IfOk result (λ head. IsBounded head.start head.number head.count) }
{
    let (start, rest) = bytes.split_at(8);
    let (number, rest) = rest.split_at(8);
    head_of(plan, number8(start), number8(number), number4(rest))
}

/// The head of its parts.
fn head_of(plan: &[u8], start: u64, number: u64, count: u32) -> Result<Head, FileFault>
    ensures read { result ≡ head_of (imprint_at plan.now) start number count }
    ensures bounded { IfOk result (λ head. IsBounded head.start head.number head.count) }
{
    match Imprint::read(plan) {
        Ok(plan) => bounded(Head {
            plan,
            start,
            number,
            count,
        }),
        Err(_) => Err(FileFault::Imprint(8)),
    }
}

/// The head, if its numbers are within their bounds.
fn bounded(head: Head) -> Result<Head, FileFault>
    ensures read { result ≡ bounded head }
    ensures bounded { IfOk result (λ head. IsBounded head.start head.number head.count) }
{
    if head.start >= 1 << 63 {
        return Err(FileFault::Bound(41));
    }
    if head.number >= 1 << 51 {
        return Err(FileFault::Bound(49));
    }
    let first = head.start.max(FILE_SECONDS * head.number);
    if head.count == 0 || FILE_SECONDS * (head.number + 1) < first + u64::from(head.count) {
        return Err(FileFault::Bound(57));
    }
    Ok(head)
}
