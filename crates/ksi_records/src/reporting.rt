//! The lines of a verdict.
ghost use Rattle.std.specs.Prelude.{◌≡◌, ◌++◌, List, IfOk, IfSome, OnOk};
ghost use Rattle.std.specs.Io.KnownBytes.{Appends};
ghost use Rattle.ksi_records.specs.Entries.{Entry};
ghost use Rattle.ksi_records.specs.Verdicts.{shown, IsVerdict};
ghost use Rattle.ksi_schedule.specs.Printed.{line_of, spaced};
ghost use Rattle.ksi_records.specs.Reports.{counts_words, status_of, verdict_text, verdict_words, version_words};

use crate::blocks::{put_number, put_place};
use crate::stream::retrace;
use crate::verdict::{Counts, Retraced};
use crate::version::Version;
use ksi_imprint::{Compress, NoMemory};
use ksi_schedule::Plan;
use std::alloc::Global;
use std::io::{self, BufRead, Write};

/// Compares a record with the world of a plan. It writes the world's blocks of the steps whose reply was lost, and after them
/// the line of the verdict. The result is the exit status.
///
/// # Errors
/// The reader's, and the writer's. `OutOfMemory`.
pub fn report<C: Compress, S: BufRead, W: Write>(
    alloc: Global,
    plan: &Plan,
    log: &mut S,
    out: &mut W,
) -> io::Result<u8>
    ensures { IfOk result (λ status. IfSome (S.remaining log.old) (λ text.
        (version : Version) × (entries : List Entry) × (verdict : Retraced) × IsVerdict C.image plan.now version text entries verdict ×
        Appends (W.contents out.old) (W.contents out.new) (shown C.image plan.now entries ++ verdict_text verdict) × (status ≡ status_of verdict))) }
{
    let verdict = retrace::<C, S, W>(alloc, plan, log, out)?;
    let text = verdict_text(alloc, &verdict)?;
    let status = status_of(&verdict);
    out.write_all(&text)?;
    Ok(status)
}

/// The line of a verdict.
fn verdict_text(alloc: Global, verdict: &Retraced) -> Result<Vec<u8>, NoMemory>
    ensures { IfOk result (λ text. text.items ≡ verdict_text verdict.now) }
{
    let mut text = Vec::new(alloc);
    put_verdict(&mut text, verdict)?;
    text.push(b'\n')?;
    Ok(text)
}

fn put_verdict(text: &mut Vec<u8>, verdict: &Retraced) -> Result<(), NoMemory>
    ensures { OnOk result (text.new.items ≡ text.old.items ++ line_of (verdict_words verdict.now)) }
{
    match verdict {
        Retraced::Agrees(counts) => put_counts(text, *counts),
        Retraced::Differs(place) => {
            text.extend_from_slice(b"differs")?;
            put_place(text, *place)
        }
        Retraced::Refused(fault, place) => {
            text.extend_from_slice(b"refused ")?;
            text.extend_from_slice(fault.word())?;
            put_place(text, *place)
        }
    }
}

fn put_counts(text: &mut Vec<u8>, counts: Counts) -> Result<(), NoMemory>
    ensures { OnOk result (text.new.items ≡ text.old.items ++ line_of (counts_words counts)) }
{
    text.extend_from_slice(b"agrees ")?;
    put_number(text, counts.steps as u64)?;
    text.extend_from_slice(b" unsaid ")?;
    put_number(text, counts.unsaid)?;
    text.extend_from_slice(b" signatures ")?;
    put_number(text, counts.signatures)?;
    put_version(text, counts.version)
}

/// What was not compared, if the version does not have it.
fn put_version(text: &mut Vec<u8>, version: Version) -> Result<(), NoMemory>
    ensures { OnOk result (text.new.items ≡ text.old.items ++ spaced (version_words version)) }
{
    match version {
        Version::One => text.extend_from_slice(b" lines not compared"),
        Version::Two => Ok(()),
    }
}

/// The exit status.
fn status_of(verdict: &Retraced) -> u8
    ensures { result ≡ status_of verdict.now }
{
    match verdict {
        Retraced::Agrees(_) => 0,
        Retraced::Differs(_) => 1,
        Retraced::Refused(_, _) => 3,
    }
}
