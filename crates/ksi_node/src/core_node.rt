//! A core as a process.
ghost use Rattle.std.specs.Prelude.{◌≡◌, ◌<◌, ◌≤◌, ◌^◌, ℕ, false, IsTrue, OnOk, Ok, Err, Some, None};
ghost use Rattle.ksi_corenode.specs.Bare.{is_taken};
ghost use Rattle.ksi_corenode.specs.CoreState.{state_of};
ghost use Rattle.ksi_corenode.specs.Events.{event_second, IsAsked, MayTake};
ghost use Rattle.ksi_corenode.specs.Owners.{BringsOwned};
ghost use Rattle.ksi_nodestore.specs.StoreState.{IsStore};
ghost use Rattle.ksi_schedule.specs.Plans.{core_plan_of};
ghost use Rattle.ksi_wire.specs.Questions.{AsksOwned, IsSpan, MayBeAsked};
ghost use Rattle.ksi_wire.specs.declared.questions.CoreLine.TheVariants.{Chain, Held};
ghost use Rattle.std.specs.Io.KnownBytes.{Appends};
ghost use Rattle.ksi_wire.specs.Refused.{refusal_text};
ghost use Rattle.ksi_node.specs.Inlet.{came_line};
ghost use Rattle.ksi_node.specs.Serving.{Answered, IsServed};
ghost use Rattle.ksi_node.specs.CoreOutcomes.{AskedOutcome, CoreOutcome, EventOutcome};
ghost use Rattle.ksi_node.specs.Failures.{FaultsCounted};

use crate::failure::Failure;
use crate::inlet::next_line;
use crate::outlet::Outlet;
use crate::said::{refusal_block, say_ready};
use ksi_corenode::CoreEvent;
use ksi_disk::Disk;
use ksi_imprint::{Compress, Refused};
use ksi_nodestore::NodeStore;
use ksi_schedule::Plan;
use ksi_wire::{
    ChainEnds, CoreLine, Span, WireFault, chain_text, core_line, core_step_text, held_text,
};
use std::alloc::Global;
use std::io::BufRead;

/// Takes each line until the input ends, and says a block for each. The store is that of core `me` of the plan, with the plan's
/// voters, as `NodeStore::open` makes it.
///
/// # Errors
/// `Disk`: a call of the disk failed, and its count of faults rose. `Memory` or `Stream`: the count is unchanged. The process
/// is to end: its file is to be opened again.
pub fn serve_core<C: Compress, D: Disk, R: BufRead, O: Outlet>(
    alloc: Global,
    plan: &Plan,
    me: u8,
    store: &mut NodeStore<C, D>,
    reader: &mut R,
    out: &mut O,
) -> Result<(), Failure>
    requires start { store.old.core.start ≡ plan.now.start }
    requires plan { store.old.core.plan ≡ core_plan_of plan.now }
    requires me { store.old.core.me ≡ me }
    requires stored { IsStore C.image D.content D.images store.old }
    ensures served { OnOk result (IsServed (CoreOutcome C.image plan.now me) store.old.records (R.remaining reader.old) store.old store.new (O.said out.old) (O.said out.new)) }
    ensures counted { FaultsCounted (D.faults store.old.log.disk) (D.faults store.new.log.disk) result }
{
    say_ready(alloc, store.counts().records, out)?;
    let mut line = Vec::new(alloc);
    'serving: for _ in 0..u64::MAX {
        let came = next_line(reader, &mut line)?;
        if came.is_end() {
            return Ok(());
        }
        take_what_came(alloc, plan, me, store, came.is_long(), &line, out)?;
    }
    Err(Failure::Stream)
}

/// Takes a line, or refuses one that was too long.
fn take_what_came<C: Compress, D: Disk, O: Outlet>(
    alloc: Global,
    plan: &Plan,
    me: u8,
    store: &mut NodeStore<C, D>,
    is_long: bool,
    line: &[u8],
    out: &mut O,
) -> Result<(), Failure>
    requires start { store.old.core.start ≡ plan.now.start }
    requires plan { store.old.core.plan ≡ core_plan_of plan.now }
    requires me { store.old.core.me ≡ me }
    requires stored { IsStore C.image D.content D.images store.old }
    ensures answered { OnOk result (Answered (CoreOutcome C.image plan.now me) (came_line is_long line.now) store.old store.new (O.said out.old) (O.said out.new)) }
    ensures start { OnOk result (store.new.core.start ≡ store.old.core.start) }
    ensures plan { OnOk result (store.new.core.plan ≡ store.old.core.plan) }
    ensures me { OnOk result (store.new.core.me ≡ store.old.core.me) }
    ensures stored { OnOk result (IsStore C.image D.content D.images store.new) }
    ensures counted { FaultsCounted (D.faults store.old.log.disk) (D.faults store.new.log.disk) result }
{
    if is_long {
        refuse(alloc, store, WireFault::Long, out)
    } else {
        take_line(alloc, plan, me, store, line, out)
    }
}

/// Takes a line.
fn take_line<C: Compress, D: Disk, O: Outlet>(
    alloc: Global,
    plan: &Plan,
    me: u8,
    store: &mut NodeStore<C, D>,
    line: &[u8],
    out: &mut O,
) -> Result<(), Failure>
    requires start { store.old.core.start ≡ plan.now.start }
    requires plan { store.old.core.plan ≡ core_plan_of plan.now }
    requires me { store.old.core.me ≡ me }
    requires stored { IsStore C.image D.content D.images store.old }
    ensures answered { OnOk result (Answered (CoreOutcome C.image plan.now me) (Some line.now) store.old store.new (O.said out.old) (O.said out.new)) }
    ensures start { OnOk result (store.new.core.start ≡ store.old.core.start) }
    ensures plan { OnOk result (store.new.core.plan ≡ store.old.core.plan) }
    ensures me { OnOk result (store.new.core.me ≡ store.old.core.me) }
    ensures stored { OnOk result (IsStore C.image D.content D.images store.new) }
    ensures counted { FaultsCounted (D.faults store.old.log.disk) (D.faults store.new.log.disk) result }
{
    match core_line(alloc, plan, me, line) {
        Ok(asked) => take_asked(alloc, plan, me, store, asked, out),
        Err(Refused::Fault(fault)) => refuse(alloc, store, fault, out),
        Err(Refused::NoMemory) => Err(Failure::Memory),
    }
}

/// Takes what a line asks.
fn take_asked<C: Compress, D: Disk, O: Outlet>(
    alloc: Global,
    plan: &Plan,
    me: u8,
    store: &mut NodeStore<C, D>,
    asked: CoreLine,
    out: &mut O,
) -> Result<(), Failure>
    requires may { MayBeAsked plan.now asked }
    requires owned { AsksOwned plan.now.cores asked }
    requires start { store.old.core.start ≡ plan.now.start }
    requires plan { store.old.core.plan ≡ core_plan_of plan.now }
    requires me { store.old.core.me ≡ me }
    requires stored { IsStore C.image D.content D.images store.old }
    ensures answered { OnOk result (Answered (λ _. AskedOutcome C.image me (Ok asked)) None store.old store.new (O.said out.old) (O.said out.new)) }
    ensures start { OnOk result (store.new.core.start ≡ store.old.core.start) }
    ensures plan { OnOk result (store.new.core.plan ≡ store.old.core.plan) }
    ensures me { OnOk result (store.new.core.me ≡ store.old.core.me) }
    ensures stored { OnOk result (IsStore C.image D.content D.images store.new) }
    ensures counted { FaultsCounted (D.faults store.old.log.disk) (D.faults store.new.log.disk) result }
{
    match asked {
        CoreLine::Event(event) => take_or_refuse(alloc, me, store, event, out),
        CoreLine::Held(span) => tell(alloc, store, span, out),
        CoreLine::Chain(ends) => tell_chain(alloc, store, ends, out),
    }
}

/// Refuses a line.
fn refuse<C: Compress, D: Disk, O: Outlet>(
    alloc: Global,
    store: &NodeStore<C, D>,
    fault: WireFault,
    out: &mut O,
) -> Result<(), Failure>
    requires { IsStore C.image D.content D.images store.now }
    ensures answered { OnOk result (Answered (λ _. AskedOutcome C.image 0 (Err fault)) None store.now store.now (O.said out.old) (O.said out.new)) }
    ensures calm { (faults : ℕ) → FaultsCounted faults faults result }
{
    put_refusal(alloc, store, fault, out)?;
    Ok(())
}

/// Says that a line is refused.
fn put_refusal<C: Compress, D: Disk, O: Outlet>(
    alloc: Global,
    store: &NodeStore<C, D>,
    fault: WireFault,
    out: &mut O,
) -> Result<(), Failure>
    requires { IsStore C.image D.content D.images store.now }
    ensures said { OnOk result (Appends (O.said out.old) (O.said out.new) (refusal_text fault)) }
    ensures calm { (faults : ℕ) → FaultsCounted faults faults result }
{
    let text = refusal_block(alloc, fault)?;
    out.say_refusal(store, fault, &text)?;
    Ok(())
}

/// Tells what the core has of some seconds.
fn tell<C: Compress, D: Disk, O: Outlet>(
    alloc: Global,
    store: &NodeStore<C, D>,
    span: Span,
    out: &mut O,
) -> Result<(), Failure>
    requires { IsSpan span }
    ensures answered { OnOk result (Answered (λ _. AskedOutcome C.image 0 (Ok (Held span))) None store.now store.now (O.said out.old) (O.said out.new)) }
    ensures calm { (faults : ℕ) → FaultsCounted faults faults result }
{
    let text = held_text(alloc, store.core(), span)?;
    out.say_held(store, span, &text)?;
    Ok(())
}

/// Tells the chain from a second to the root of a calendar, in what the core holds.
fn tell_chain<C: Compress, D: Disk, O: Outlet>(
    alloc: Global,
    store: &NodeStore<C, D>,
    ends: ChainEnds,
    out: &mut O,
) -> Result<(), Failure>
    requires from { store.now.core.start ≤ ends.to }
    requires below { ends.to < 2 ^ 63 }
    ensures answered { OnOk result (Answered (λ _. AskedOutcome C.image 0 (Ok (Chain ends))) None store.now store.now (O.said out.old) (O.said out.new)) }
    ensures calm { (faults : ℕ) → FaultsCounted faults faults result }
{
    let text = chain_text(alloc, store.core(), ends)?;
    out.say_chain(store, ends, &text)?;
    Ok(())
}

/// Takes an event, or refuses it: if only the root of its second is left, a core takes `Tell` and `Publish` alone. It may have
/// voted in that second before it forgot it, and must not vote again. So a refused event changes nothing in the store, even if
/// the call ends with an error (`untaken`).
fn take_or_refuse<C: Compress, D: Disk, O: Outlet>(
    alloc: Global,
    me: u8,
    store: &mut NodeStore<C, D>,
    event: CoreEvent,
    out: &mut O,
) -> Result<(), Failure>
    requires may { MayTake store.old.core event }
    requires asked { IsAsked store.old.core (event_second event) }
    requires owned { BringsOwned store.old.core.plan.cores event }
    requires me { store.old.core.me ≡ me }
    requires stored { IsStore C.image D.content D.images store.old }
    ensures answered { OnOk result (Answered (λ _. EventOutcome C.image me event) None store.old store.new (O.said out.old) (O.said out.new)) }
    ensures untaken { is_taken (state_of store.old.core) event ≡ false → store.new ≡ store.old }
    ensures start { OnOk result (store.new.core.start ≡ store.old.core.start) }
    ensures plan { OnOk result (store.new.core.plan ≡ store.old.core.plan) }
    ensures me { OnOk result (store.new.core.me ≡ store.old.core.me) }
    ensures stored { OnOk result (IsStore C.image D.content D.images store.new) }
    ensures counted { FaultsCounted (D.faults store.old.log.disk) (D.faults store.new.log.disk) result }
{
    if store.core().is_taken(&event) {
        take_event(alloc, me, store, event, out)
    } else {
        put_refusal(alloc, store, WireFault::Forgotten, out)?;
        Ok(())
    }
}

/// Takes an event, and says what came of it once its fact is on the disk for good.
fn take_event<C: Compress, D: Disk, O: Outlet>(
    alloc: Global,
    me: u8,
    store: &mut NodeStore<C, D>,
    event: CoreEvent,
    out: &mut O,
) -> Result<(), Failure>
    requires taken { IsTrue (is_taken (state_of store.old.core) event) }
    requires may { MayTake store.old.core event }
    requires asked { IsAsked store.old.core (event_second event) }
    requires owned { BringsOwned store.old.core.plan.cores event }
    requires me { store.old.core.me ≡ me }
    requires stored { IsStore C.image D.content D.images store.old }
    ensures answered { OnOk result (Answered (λ _. EventOutcome C.image me event) None store.old store.new (O.said out.old) (O.said out.new)) }
    ensures start { OnOk result (store.new.core.start ≡ store.old.core.start) }
    ensures plan { OnOk result (store.new.core.plan ≡ store.old.core.plan) }
    ensures me { OnOk result (store.new.core.me ≡ store.old.core.me) }
    ensures stored { OnOk result (IsStore C.image D.content D.images store.new) }
    ensures counted { FaultsCounted (D.faults store.old.log.disk) (D.faults store.new.log.disk) result }
{
    let second = second_of(&event);
    let step = store.take(event)?;
    let text = core_step_text(alloc, me, second, &step)?;
    out.say_step(store, &text)?;
    Ok(())
}

/// The second of an event.
fn second_of(event: &CoreEvent) -> u64
    ensures { result ≡ event_second event.now }
{
    match event {
        CoreEvent::Submission(_, second, _) => *second,
        CoreEvent::Seal(second) => *second,
        CoreEvent::Ballot(second) => *second,
        CoreEvent::Receive(_, second, _) => *second,
        CoreEvent::Tell(second) => *second,
        CoreEvent::Respond(second) => *second,
        CoreEvent::Publish(second) => *second,
    }
}
