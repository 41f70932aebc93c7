//! An aggregator as a process.
ghost use Rattle.std.specs.Prelude.{◌≡◌, ◌<◌, ◌^◌, ℕ, length, true, false, IfOk, OnOk, Some, None, Ok};
ghost use Rattle.ksi_aggregator.specs.Events.{event_second, MayTake};
ghost use Rattle.ksi_aggregator.specs.Rounds.{rounds_of};
ghost use Rattle.std.specs.Io.KnownBytes.{Appends};
ghost use Rattle.ksi_schedule.specs.Plans.{PlanState};
ghost use Rattle.ksi_wire.specs.Refused.{refusal_text};
ghost use Rattle.ksi_wire.specs.RoundLines.{FitsRound, MayBeTaken};
ghost use Rattle.ksi_roundstore.specs.Stores.{IsStore};
ghost use Rattle.ksi_roundstore.specs.Written.{IsWritten};
ghost use Rattle.ksi_node.specs.Failures.{FaultsCounted};
ghost use Rattle.ksi_node.specs.Inlet.{came_line, NoFeed};
ghost use Rattle.ksi_node.specs.RoundOutcomes.{AskedRound, AsksWritten, EventOutcome, IsTaken, RoundOutcome, SignTold};
ghost use Rattle.ksi_node.specs.Serving.{Answered, IsServed};

use crate::failure::Failure;
use crate::inlet::next_line;
use crate::outlet::Outlet;
use crate::said::{refusal_block, say_ready};
use ksi_aggregator::{Aggregator, RoundEvent};
use ksi_disk::Disk;
use ksi_imprint::{Compress, NoMemory, Refused};
use ksi_roundstore::RoundStore;
use ksi_roundstore::laws::{lines_are_written, stores_go_on};
use ksi_schedule::Plan;
use ksi_wire::{AggregatorLine, WireFault, aggregator_line, round_step_text};
use std::alloc::Global;
use std::io::BufRead;

/// Takes each line until the input ends, and says a block for each. The store is that of aggregator `me` of the plan, as
/// `RoundStore::open` makes it.
///
/// # Errors
/// `Disk`: a call of the disk failed, and its count of faults rose. `Memory` or `Stream`: the count is unchanged. The process
/// is to end: its file is to be opened again.
pub fn serve_aggregator<C: Compress, D: Disk, R: BufRead, O: Outlet>(
    alloc: Global,
    plan: &Plan,
    me: u32,
    store: &mut RoundStore<C, D>,
    reader: &mut R,
    out: &mut O,
) -> Result<(), Failure>
    requires there { me < length plan.now.parents }
    requires me { store.old.aggregator.me ≡ me }
    requires kept { IsStore D.content D.images me plan.now store.old }
    ensures served { OnOk result (IsServed (RoundOutcome C.image plan.now me) store.old.records (R.remaining reader.old) store.old store.new (O.said out.old) (O.said out.new)) }
    ensures counted { FaultsCounted (D.faults store.old.log.disk) (D.faults store.new.log.disk) result }
{
    say_ready(alloc, store.records(), out)?;
    let mut line = Vec::new(alloc);
    'serving: for _ in 0..u64::MAX {
        let came = next_line(reader, &mut line)?;
        if came.is_end() {
            return Ok(());
        }
        take_what_came(alloc, plan, me, store, came.is_long(), &line, out)?;
    }
    Err(Failure::Stream)
}

/// Takes a line, or refuses one that was too long.
fn take_what_came<C: Compress, D: Disk, O: Outlet>(
    alloc: Global,
    plan: &Plan,
    me: u32,
    store: &mut RoundStore<C, D>,
    is_long: bool,
    line: &[u8],
    out: &mut O,
) -> Result<(), Failure>
    requires there { me < length plan.now.parents }
    requires me { store.old.aggregator.me ≡ me }
    requires kept { IsStore D.content D.images me plan.now store.old }
    requires free { is_long ≡ false → NoFeed line.now }
    ensures answered { OnOk result (Answered (RoundOutcome C.image plan.now me) (came_line is_long line.now) store.old store.new (O.said out.old) (O.said out.new)) }
    ensures me { OnOk result (store.new.aggregator.me ≡ store.old.aggregator.me) }
    ensures kept { OnOk result (IsStore D.content D.images me plan.now store.new) }
    ensures counted { FaultsCounted (D.faults store.old.log.disk) (D.faults store.new.log.disk) result }
{
    if is_long {
        refuse(alloc, store, WireFault::Long, out)
    } else {
        take_line(alloc, plan, me, store, line, out)
    }
}

/// Takes a line.
fn take_line<C: Compress, D: Disk, O: Outlet>(
    alloc: Global,
    plan: &Plan,
    me: u32,
    store: &mut RoundStore<C, D>,
    line: &[u8],
    out: &mut O,
) -> Result<(), Failure>
    requires there { me < length plan.now.parents }
    requires me { store.old.aggregator.me ≡ me }
    requires kept { IsStore D.content D.images me plan.now store.old }
    requires free { NoFeed line.now }
    ensures answered { OnOk result (Answered (RoundOutcome C.image plan.now me) (Some line.now) store.old store.new (O.said out.old) (O.said out.new)) }
    ensures me { OnOk result (store.new.aggregator.me ≡ store.old.aggregator.me) }
    ensures kept { OnOk result (IsStore D.content D.images me plan.now store.new) }
    ensures counted { FaultsCounted (D.faults store.old.log.disk) (D.faults store.new.log.disk) result }
{
    lines_are_written();
    match aggregator_line(alloc, plan, me, line) {
        Ok(asked) => take_asked(alloc, plan, me, store, asked, out),
        Err(Refused::Fault(fault)) => refuse(alloc, store, fault, out),
        Err(Refused::NoMemory) => Err(Failure::Memory),
    }
}

/// Refuses a line.
fn refuse<C: Compress, D: Disk, O: Outlet>(
    alloc: Global,
    store: &RoundStore<C, D>,
    fault: WireFault,
    out: &mut O,
) -> Result<(), Failure>
    requires { (me : ℕ) × (plan : PlanState) × IsStore D.content D.images me plan store.now }
    ensures answered { OnOk result (Answered (λ _ before after text. (after ≡ before) × (text ≡ refusal_text fault)) None store.now store.now (O.said out.old) (O.said out.new)) }
    ensures calm { (faults : ℕ) → FaultsCounted faults faults result }
{
    put_refusal(alloc, store, fault, out)?;
    Ok(())
}

/// Says that a line is refused.
fn put_refusal<C: Compress, D: Disk, O: Outlet>(
    alloc: Global,
    store: &RoundStore<C, D>,
    fault: WireFault,
    out: &mut O,
) -> Result<(), Failure>
    requires { (me : ℕ) × (plan : PlanState) × IsStore D.content D.images me plan store.now }
    ensures said { OnOk result (Appends (O.said out.old) (O.said out.new) (refusal_text fault)) }
    ensures calm { (faults : ℕ) → FaultsCounted faults faults result }
{
    let text = refusal_block(alloc, fault)?;
    out.say_round_refusal(store, fault, &text)?;
    Ok(())
}

/// Takes what a line asks.
fn take_asked<C: Compress, D: Disk, O: Outlet>(
    alloc: Global,
    plan: &Plan,
    me: u32,
    store: &mut RoundStore<C, D>,
    asked: AggregatorLine,
    out: &mut O,
) -> Result<(), Failure>
    requires there { me < length plan.now.parents }
    requires me { store.old.aggregator.me ≡ me }
    requires kept { IsStore D.content D.images me plan.now store.old }
    requires written { AsksWritten plan.now me asked }
    requires fits { MayBeTaken asked }
    ensures answered { OnOk result (Answered (λ _. AskedRound C.image plan.now me (Ok asked)) None store.old store.new (O.said out.old) (O.said out.new)) }
    ensures me { OnOk result (store.new.aggregator.me ≡ store.old.aggregator.me) }
    ensures kept { OnOk result (IsStore D.content D.images me plan.now store.new) }
    ensures counted { FaultsCounted (D.faults store.old.log.disk) (D.faults store.new.log.disk) result }
{
    match asked {
        AggregatorLine::Event(event) => {
            if may_take(store.aggregator(), &event) {
                take_event(alloc, plan, me, store, event, out)
            } else {
                put_refusal(alloc, store, WireFault::Taken, out)?;
                Ok(())
            }
        }
        AggregatorLine::Sign(number) => {
            let text = signature_text(alloc, store.aggregator(), number)?;
            out.say_signature(store, number, &text)?;
            Ok(())
        }
    }
}

/// Takes an event that is due, and says what came of it once its fact is on the disk for good.
fn take_event<C: Compress, D: Disk, O: Outlet>(
    alloc: Global,
    plan: &Plan,
    me: u32,
    store: &mut RoundStore<C, D>,
    event: RoundEvent,
    out: &mut O,
) -> Result<(), Failure>
    requires there { me < length plan.now.parents }
    requires me { store.old.aggregator.me ≡ me }
    requires kept { IsStore D.content D.images me plan.now store.old }
    requires written { IsWritten plan.now me event }
    requires due { MayTake (rounds_of store.old.aggregator) event }
    requires fits { FitsRound event }
    ensures answered { OnOk result (Answered (λ _. EventOutcome C.image plan.now me event) None store.old store.new (O.said out.old) (O.said out.new)) }
    ensures me { OnOk result (store.new.aggregator.me ≡ store.old.aggregator.me) }
    ensures kept { OnOk result (IsStore D.content D.images me plan.now store.new) }
    ensures counted { FaultsCounted (D.faults store.old.log.disk) (D.faults store.new.log.disk) result }
{
    stores_go_on::<C, D>();
    let second = second_of(&event);
    let step = store.take(event)?;
    let sends = step.sends.as_slice();
    let text = round_step_text(
        alloc,
        plan,
        me,
        second,
        &step.answer,
        step.fact.is_some(),
        sends,
    )?;
    out.say_round_step(plan, store, &text)?;
    Ok(())
}

/// Whether an event may be taken: the number of a request is new.
fn may_take<C: Compress>(aggregator: &Aggregator<C>, event: &RoundEvent) -> bool
    requires { FitsRound event.now }
    ensures may { result ≡ true → MayTake (rounds_of aggregator.now) event.now }
    ensures taken { result ≡ false → IsTaken (rounds_of aggregator.now) event.now }
{
    match event {
        RoundEvent::Request(number, _, _, _) => aggregator.is_new(*number),
        RoundEvent::Submission(_, _, _) => true,
        RoundEvent::Close(_) => true,
        RoundEvent::Response(_, _) => true,
    }
}

/// The second of an event.
fn second_of(event: &RoundEvent) -> u64
    requires { FitsRound event.now }
    ensures second { result ≡ event_second event.now }
    ensures early { result < 2 ^ 63 }
{
    match event {
        RoundEvent::Request(_, second, _, _) => *second,
        RoundEvent::Submission(_, second, _) => *second,
        RoundEvent::Close(second) => *second,
        RoundEvent::Response(second, _) => *second,
    }
}

/// The block for the signature of a request.
fn signature_text<C: Compress>(
    alloc: Global,
    aggregator: &Aggregator<C>,
    number: u64,
) -> Result<Vec<u8>, NoMemory>
    ensures { IfOk result (λ text. SignTold C.image (rounds_of aggregator.now) number text.items) }
{
    let mut text = Vec::new(alloc);
    match aggregator.issued(number)? {
        Some(bytes) => {
            text.extend_from_slice(b"signature ")?;
            let hex = hex::encode(alloc, bytes.as_slice())?;
            text.extend_from_slice(hex.as_bytes())?;
            text.extend_from_slice(b"\n.\n")?;
        }
        None => text.extend_from_slice(b"not issued\n.\n")?,
    }
    Ok(text)
}
