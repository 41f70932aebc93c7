//! A record, compared with the world.
ghost use Rattle.std.specs.Prelude.{◌≡◌, [], IfOk, IfSome, OnOk, List};
ghost use Rattle.std.specs.Io.KnownBytes.{Appends};
ghost use Rattle.ksi_records.specs.Entries.{Entry, IsHead};
ghost use Rattle.ksi_records.specs.Told.{with_head};
ghost use Rattle.ksi_records.specs.Steps.{IsHeld};
ghost use Rattle.ksi_records.specs.Histories.{HasHistory};
ghost use Rattle.ksi_records.specs.Verdicts.{shown, shown_block, AreEntries, IsVerdict};

use crate::blocks::{Place, put_number};
use crate::entry::{Next, next_entry};
use crate::head::Head;
use crate::reading::{came_in, is};
use crate::sum::Sum;
use crate::tracer::{Told, Tracer};
use crate::verdict::Retraced;
use crate::version::Version;
use ksi_imprint::{Compress, NoMemory, Refused};
use ksi_schedule::Plan;
use std::alloc::Global;
use std::io::{self, BufRead, Read, Write};

/// Compares a record with the world of a plan: the verdict is on what follows the entries that agree, and there is no
/// other. For each step whose reply was lost it writes the place and the block that the world has there. It takes the memory
/// of the world and of one entry.
///
/// # Errors
/// The reader's, and the writer's. `OutOfMemory`.
pub fn retrace<C: Compress, S: BufRead, W: Write>(
    alloc: Global,
    plan: &Plan,
    log: &mut S,
    out: &mut W,
) -> io::Result<Retraced>
    ensures verdict { IfOk result (λ verdict. IfSome (S.remaining log.old) (λ text.
        (version : Version) × (entries : List Entry) × IsVerdict C.image plan.now version text entries verdict
        × Appends (W.contents out.old) (W.contents out.new) (shown C.image plan.now entries))) }
    ensures only { IfOk result (λ verdict. IfSome (S.remaining log.old) (λ text.
        (version : Version) (entries : List Entry) (other : Retraced) → IsVerdict C.image plan.now version text entries other → other ≡ verdict)) }
    ensures history { IfOk result (λ verdict. IfSome (S.remaining log.old) (λ text. HasHistory C.image plan.now text verdict)) }
{
    // a fact of each plan: it is one
    plan.core_plan();
    by_version::<C, S, W>(alloc, plan, log, out)
}

/// The verdict, by the version that the first line names.
fn by_version<C: Compress, S: BufRead, W: Write>(
    alloc: Global,
    plan: &Plan,
    log: &mut S,
    out: &mut W,
) -> io::Result<Retraced>
    ensures { IfOk result (λ verdict. IfSome (S.remaining log.old) (λ text.
        (version : Version) × (entries : List Entry) × IsVerdict C.image plan.now version text entries verdict
        × Appends (W.contents out.old) (W.contents out.new) (shown C.image plan.now entries))) }
{
    let mut first = Vec::new(alloc);
    log.read_until(b'\n', &mut first)?;
    if is(first.as_slice(), b"ksi-record 2\n") {
        verdict_on::<C, S, W>(alloc, plan, Version::Two, log, out)
    } else {
        let mut whole = first.as_slice().chain(log);
        verdict_on::<C, _, W>(alloc, plan, Version::One, &mut whole, out)
    }
}

/// The verdict on the entries of a record, with what it takes.
fn verdict_on<C: Compress, S: BufRead, W: Write>(
    alloc: Global,
    plan: &Plan,
    version: Version,
    log: &mut S,
    out: &mut W,
) -> io::Result<Retraced>
    ensures { IfOk result (λ verdict. IfSome (S.remaining log.old) (λ text.
        (entries : List Entry) × AreEntries C.image plan.now version text entries verdict × Appends (W.contents out.old) (W.contents out.new) (shown C.image plan.now entries))) }
{
    let mut tracer = Tracer::<C>::new(alloc, plan)?;
    let mut line = Vec::new(alloc);
    let mut block = Vec::new(alloc);
    entry_by_entry(
        alloc,
        plan,
        version,
        &mut tracer,
        log,
        out,
        &mut line,
        &mut block,
    )
}

/// The verdict, by a tracer before anything happened. `line` and `block` are room for an entry.
fn entry_by_entry<C: Compress, S: BufRead, W: Write>(
    alloc: Global,
    plan: &Plan,
    version: Version,
    tracer: &mut Tracer<C>,
    log: &mut S,
    out: &mut W,
    line: &mut Vec<u8>,
    block: &mut Vec<u8>,
) -> io::Result<Retraced>
    requires { tracer.old ≡ record { plan = plan.now; events = [] } }
    ensures { IfOk result (λ verdict. IfSome (S.remaining log.old) (λ text.
        (entries : List Entry) × AreEntries C.image plan.now version text entries verdict × Appends (W.contents out.old) (W.contents out.new) (shown C.image plan.now entries))) }
{
    let mut sum = Sum::new();
    'entries: for _ in 0..u64::MAX {
        let steps = tracer.steps();
        let next = next_entry(alloc, plan, version, log, line, block)?;
        let head = match next {
            Next::Entry(head) => head,
            Next::Refused(fault) => return Ok(Retraced::Refused(fault, sum.place)),
            Next::End => {
                let counts = sum.counts(version, steps);
                return Ok(Retraced::Agrees(counts));
            }
        };
        let came = came_in(version, line);
        let verdict = held(alloc, tracer, out, version, sum.place, &head, came, block)?;
        match verdict {
            Some(verdict) => return Ok(verdict),
            None => {}
        }
        sum = sum.with(&head, block);
    }
    Err(io::ErrorKind::Other.into())
}

/// Compares an entry with the world. Returns nothing if it agrees, else the verdict.
fn held<C: Compress, W: Write>(
    alloc: Global,
    tracer: &mut Tracer<C>,
    out: &mut W,
    version: Version,
    place: Place,
    head: &Head,
    came: &[u8],
    block: &[u8],
) -> io::Result<Option<Retraced>>
    requires { IsHead tracer.old.plan head.now }
    ensures held { IfOk result (IsHeld C.image tracer.old.plan version tracer.old.events place head.now came.now block.now (W.contents out.old) (W.contents out.new)) }
    ensures events { IfOk result (λ verdict. verdict ≡ None → tracer.new ≡ record { plan = tracer.old.plan; events = with_head C.image tracer.old.plan tracer.old.events head.now }) }
{
    match tracer.take(version, head, came, block) {
        Ok(Told::Agrees) => Ok(None),
        Ok(Told::Unsaid(text)) => {
            show(alloc, out, place, text.as_slice())?;
            Ok(None)
        }
        Ok(Told::Differs) => Ok(Some(Retraced::Differs(place))),
        Err(Refused::Fault(fault)) => Ok(Some(Retraced::Refused(fault, place))),
        Err(Refused::NoMemory) => Err(io::ErrorKind::OutOfMemory.into()),
    }
}

/// Writes the place of a step whose reply was lost, and its block.
fn show<W: Write>(alloc: Global, out: &mut W, place: Place, block: &[u8]) -> io::Result<()>
    ensures { OnOk result (Appends (W.contents out.old) (W.contents out.new) (shown_block place block.now)) }
{
    let text = shown_block(alloc, place, block)?;
    out.write_all(&text)
}

fn shown_block(alloc: Global, place: Place, block: &[u8]) -> Result<Vec<u8>, NoMemory>
    ensures { IfOk result (λ text. text.items ≡ shown_block place block.now) }
{
    let mut text = Vec::new(alloc);
    text.extend_from_slice(b"unsaid ")?;
    put_number(&mut text, place.entry)?;
    text.push(b' ')?;
    put_number(&mut text, place.line)?;
    text.push(b'\n')?;
    text.extend_from_slice(block)?;
    Ok(text)
}
