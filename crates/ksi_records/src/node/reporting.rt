//! What is written of a verdict.
ghost use Rattle.std.specs.Prelude.{◌≡◌, ◌++◌, List, IfOk, IfSome, OnOk};
ghost use Rattle.std.specs.Io.KnownBytes.{Appends};
ghost use Rattle.ksi_schedule.specs.Printed.{line_of};
ghost use Rattle.ksi_records.specs.Node.Entries.{Entry};
ghost use Rattle.ksi_records.specs.Node.Reports.{status_of, verdict_text, verdict_words};
ghost use Rattle.ksi_records.specs.Node.Steps.{IsThere};
ghost use Rattle.ksi_records.specs.Node.Verdicts.{HasVerdict};

use crate::blocks::{put_number, put_place};
use crate::node::stream::retrace;
use crate::node::verdict::Verdict;
use ksi_imprint::{Compress, NoMemory};
use ksi_schedule::{Actor, Plan};
use std::alloc::Global;
use std::io::{self, BufRead, Write};

/// Compares the log of a node of the plan with the node's own run, and writes the line of the verdict. The result is the exit
/// status.
///
/// # Errors
/// The reader's, and the writer's. `OutOfMemory`.
pub fn report<C: Compress, S: BufRead, W: Write>(
    alloc: Global,
    plan: &Plan,
    me: Actor,
    log: &mut S,
    out: &mut W,
) -> io::Result<u8>
    requires { IsThere plan.now me }
    ensures { IfOk result (λ status. IfSome (S.remaining log.old) (λ text.
        (entries : List Entry) × (verdict : Verdict) × HasVerdict C.image plan.now me entries text verdict ×
        Appends (W.contents out.old) (W.contents out.new) (verdict_text verdict) × (status ≡ status_of verdict))) }
{
    let verdict = retrace::<C, S>(alloc, plan, me, log)?;
    let text = verdict_text(alloc, &verdict)?;
    let status = status_of(&verdict);
    out.write_all(&text)?;
    Ok(status)
}

/// The line of a verdict.
fn verdict_text(alloc: Global, verdict: &Verdict) -> Result<Vec<u8>, NoMemory>
    ensures { IfOk result (λ text. text.items ≡ verdict_text verdict.now) }
{
    let mut text = Vec::new(alloc);
    put_verdict(&mut text, verdict)?;
    text.push(b'\n')?;
    Ok(text)
}

fn put_verdict(text: &mut Vec<u8>, verdict: &Verdict) -> Result<(), NoMemory>
    ensures { OnOk result (text.new.items ≡ text.old.items ++ line_of (verdict_words verdict.now)) }
{
    match verdict {
        Verdict::Agrees(entries) => {
            text.extend_from_slice(b"agrees ")?;
            put_number(text, *entries)
        }
        Verdict::Differs(place) => {
            text.extend_from_slice(b"differs")?;
            put_place(text, *place)
        }
        Verdict::Refused(fault, place) => {
            text.extend_from_slice(b"refused ")?;
            text.extend_from_slice(fault.word())?;
            put_place(text, *place)
        }
    }
}

/// The exit status.
fn status_of(verdict: &Verdict) -> u8
    ensures { result ≡ status_of verdict.now }
{
    match verdict {
        Verdict::Agrees(_) => 0,
        Verdict::Differs(_) => 1,
        Verdict::Refused(_, _) => 3,
    }
}
