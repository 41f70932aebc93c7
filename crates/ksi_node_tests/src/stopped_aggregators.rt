//! An aggregator is stopped at each call of its disk, and its file is opened again, whatever a crash leaves: it is the
//! aggregator of the facts before, after a restart, or of one more.
ghost use Rattle.std.specs.Prelude.{◌<◌, length, IfOk, IfSome, IsTrue};
ghost use Rattle.ksi_aggregator.specs.Events.{MayTake};
ghost use Rattle.ksi_aggregator.specs.Rounds.{rounds_of};
ghost use Rattle.ksi_wire.specs.RoundLines.{FitsRound};

use ksi_aggregator::{Aggregator, RoundEvent};
use ksi_aggtree::Item;
use ksi_disk::{Fate, MemDisk};
use ksi_imprint::{Bytes, Imprint, NoMemory, Sha};
use ksi_roundstore::{RoundStore, format};
use ksi_schedule::{Plan, read_schedule};
use ksi_signature::{Above, AboveChains, CalendarLinks};
use std::alloc::Global;
use std::test::Fail;

const START: u64 = 1_700_000_000;

const PLAN: &[u8] =
    b"ksi-schedule 1\ncores 1\nstart 1700000000\naggregator 0 parent c0\naggregator 1 parent a0\n";

/// The plan of a core, of aggregator 0 below it and of aggregator 1 below that; none where memory is wanting.
fn plan(alloc: Global) -> Option<Plan>
    ensures { IfSome result (λ plan. 0 < length plan.parents) }
{
    match read_schedule(alloc, PLAN) {
        Ok(schedule) => {
            let (plan, _) = schedule.into_parts();
            if plan.aggregators() == 2 {
                Some(plan)
            } else {
                None
            }
        }
        Err(_) => None,
    }
}

/// What a core sends of a round whose tree stands alone there.
fn above(alloc: Global) -> Above
    ensures { length result.chains < 1 }
{
    Above {
        root: Imprint::of_digest(&[7; 32]),
        chains: AboveChains::from_vec(Vec::new(alloc)),
        calendar: CalendarLinks::from_vec(Vec::new(alloc)),
    }
}

/// A request and an item of aggregator 1 come, the round is closed, and its response comes; then a request for the next
/// second, whose round is closed too.
fn event(alloc: Global, n: usize) -> RoundEvent
    ensures { FitsRound result }
{
    match n {
        0 => RoundEvent::Request(5, START, Imprint::of_digest(&[1; 32]), None),
        1 => RoundEvent::Submission(1, START, Item::new(Imprint::of_digest(&[2; 32]), 3)),
        2 => RoundEvent::Close(START),
        3 => RoundEvent::Response(START, above(alloc)),
        4 => RoundEvent::Request(6, START + 1, Imprint::of_digest(&[3; 32]), None),
        _ => RoundEvent::Close(START + 1),
    }
}

/// Whether an event may be taken: the number of a request is new.
fn may_take(aggregator: &Aggregator<Sha>, event: &RoundEvent) -> bool
    requires { FitsRound event.now }
    ensures { IsTrue result → MayTake (rounds_of aggregator.now) event.now }
{
    match event {
        RoundEvent::Request(number, _, _, _) => aggregator.is_new(*number),
        RoundEvent::Submission(_, _, _) => true,
        RoundEvent::Close(_) => true,
        RoundEvent::Response(_, _) => true,
    }
}

/// The disk after the file is made and opened and the events came, up to the first call that fails.
fn run(alloc: Global, plan: &Plan, failing: Vec<u64>) -> Result<MemDisk, Fail>
    requires { 0 < length plan.now.parents }
{
    let mut disk = MemDisk::new(alloc, b"", 2000, 50, failing)?;
    if format(0, plan, &mut disk).is_err() {
        return Ok(disk);
    }
    Ok(
        match RoundStore::<Sha, MemDisk>::open(alloc, 0, plan, disk) {
            Ok(store) => go_on(alloc, store),
            Err((_, disk)) => disk,
        },
    )
}

fn go_on(alloc: Global, store: RoundStore<Sha, MemDisk>) -> MemDisk {
    let mut store = store;
    for n in 0..6usize {
        if !take(&mut store, event(alloc, n)) {
            return store.into_disk();
        }
    }
    store.into_disk()
}

/// Takes an event, and tells whether it could.
fn take(store: &mut RoundStore<Sha, MemDisk>, event: RoundEvent) -> bool
    requires { FitsRound event }
{
    may_take(store.aggregator(), &event) && store.take(event).is_ok()
}

/// The aggregator that took the events up to that of its last fact of so many, after a restart.
fn stopped_behind(alloc: Global, facts: u64) -> Result<Aggregator<Sha>, NoMemory> {
    let mut aggregator = Aggregator::<Sha>::new(alloc, 0);
    let events = match facts {
        0 => 2,
        1 => 3,
        2 => 5,
        _ => 6,
    };
    for n in 0..events {
        let event = event(alloc, n);
        if may_take(&aggregator, &event) {
            aggregator.take(event)?;
        }
    }
    aggregator.restart();
    Ok(aggregator)
}

/// Whether two aggregators have the same items in the round of a second, none of them open.
fn same_round(
    one: &Aggregator<Sha>,
    other: &Aggregator<Sha>,
    second: u64,
) -> Result<bool, NoMemory> {
    let counts = one.count(second) == other.count(second);
    let lower = one.has_lower(second) == other.has_lower(second);
    let closed = one.open_items(second)?.is_empty() && other.open_items(second)?.is_empty();
    Ok(counts && lower && closed)
}

fn same_bytes(one: &Option<Bytes>, other: &Option<Bytes>) -> bool {
    match (one, other) {
        (Some(one), Some(other)) => one.as_slice() == other.as_slice(),
        (None, None) => true,
        (_, _) => false,
    }
}

/// Whether they know the same of a request: its number, and its signature byte for byte.
fn same_request(
    one: &Aggregator<Sha>,
    other: &Aggregator<Sha>,
    number: u64,
) -> Result<bool, NoMemory> {
    let known = one.is_new(number) == other.is_new(number);
    Ok(known && same_bytes(&one.issued(number)?, &other.issued(number)?))
}

fn is_stopped(alloc: Global, aggregator: &Aggregator<Sha>, facts: u64) -> Result<bool, NoMemory> {
    let wanted = stopped_behind(alloc, facts)?;
    let first = same_round(aggregator, &wanted, START)?;
    let second = same_round(aggregator, &wanted, START + 1)?;
    let asked = same_request(aggregator, &wanted, 5)?;
    let asked_again = same_request(aggregator, &wanted, 6)?;
    Ok(first && second && asked && asked_again)
}

static FATES: [Fate; 12] = [
    Fate::Lost,
    Fate::Whole,
    Fate::Front(1),
    Fate::Front(4),
    Fate::Front(5),
    Fate::Front(13),
    Fate::Front(18),
    Fate::Front(90),
    Fate::Filled(0),
    Fate::Filled(1),
    Fate::Filled(7),
    Fate::Filled(255),
];

/// Whether an image opens to the aggregator of so many facts, or of one more where that may be.
fn opens_to(alloc: Global, plan: &Plan, image: &[u8], least: u64, most: u64) -> Result<bool, Fail>
    requires { 0 < length plan.now.parents }
{
    let disk = MemDisk::new(alloc, image, 0, 1, Vec::new(alloc))?;
    match RoundStore::<Sha, MemDisk>::open(alloc, 0, plan, disk) {
        Ok(store) => {
            let facts = store.records();
            let stopped = is_stopped(alloc, store.aggregator(), facts)?;
            Ok(least <= facts && facts <= most && stopped)
        }
        Err(_) => Ok(false),
    }
}

/// Whether all images of that moment open so. Behind the file's two moments and the opening's each fact has four: it is
/// written, synced, its gate is opened, and synced; from the third on it may be there, from the fourth on it is.
fn all_open(alloc: Global, plan: &Plan, disk: &MemDisk, moment: usize) -> Result<bool, Fail>
    requires { 0 < length plan.now.parents }
{
    if moment > disk.moments() {
        return Ok(false);
    }
    let since = moment.saturating_sub(3) as u64;
    let mut open = true;
    for fate in &FATES {
        let image = disk.image(moment, *fate)?;
        open = opens_to(alloc, plan, image.as_slice(), since / 4, (since + 1) / 4)? && open;
    }
    Ok(open)
}

/// Whether all images of each moment open so.
fn each_moment_opens(alloc: Global) -> Result<bool, Fail> {
    let Some(plan) = plan(alloc) else {
        return Ok(false);
    };
    let disk = run(alloc, &plan, Vec::new(alloc))?;
    let mut open = disk.moments() == 15 && disk.calls() == 18;
    for moment in 2..16usize {
        open = all_open(alloc, &plan, &disk, moment)? && open;
    }
    Ok(open)
}

#[test]
fn an_aggregator_is_opened_again_whenever_it_is_stopped(rt: HostRuntime) -> Result<(), Fail> {
    assert!(rt; each_moment_opens(rt.alloc())?);
    Ok(())
}

/// Whether the images that the disk leaves open so, where its call of this number fails. The first two make the file.
fn fails_so(alloc: Global, call: u64) -> Result<bool, Fail> {
    let Some(plan) = plan(alloc) else {
        return Ok(false);
    };
    let mut failing = Vec::new(alloc);
    failing.push(call)?;
    let disk = run(alloc, &plan, failing)?;
    Ok(disk.faults() == 1 && all_open(alloc, &plan, &disk, disk.moments())?)
}

#[test]
fn an_aggregator_is_opened_again_whichever_call_fails(rt: HostRuntime) -> Result<(), Fail> {
    for call in 2..18u64 {
        assert!(rt; fails_so(rt.alloc(), call)?);
    }
    Ok(())
}
