//! A core that takes events beside one whose calls are made, and its next second, and the first that is not held, beside plain
//! looks at all seconds.
ghost use Rattle.std.specs.Prelude.{◌≡◌, ◌<◌, ◌^◌};
ghost use Rattle.ksi_corenode.specs.CoreState.{CoreState};
ghost use Rattle.ksi_corenode.specs.Events.{MayTake};

use crate::generated::{event, next};
use crate::same::same;
use crate::steps::are_alike;
use ksi_corenode::{Answer, Core, CoreEvent, CorePlan, NoMemory, Step, Steps};
use ksi_imprint::{Imprint, Sha};
use std::alloc::Global;
use std::marker::{Brand, Model};
use std::process::Abort;
use std::sync::ledger::{Blank, Ledger};

const T: u64 = 1_700_000_000;

/// Two cores of a plan that begins at second T: one takes events, and the calls of the other are made.
#[derive(Drop)]
struct Two {
    taking: Core<Sha>,
    called: Core<Sha>,
}

impl Model for Two {
    ghost use Rattle.std.specs.Prelude.{◌≡◌};
    ghost use Rattle.ksi_corenode.specs.CoreState.{CoreState};

    ghost Value = { CoreState × CoreState };

    ghost view = { λ two. (two.taking, two.called) };

    ghost invariant = { λ two. (two.taking.start ≡ 1700000000) × (two.called.start ≡ 1700000000) };
}

impl Two {
    fn new(alloc: Global) -> Self {
        let plan = CorePlan::new(3, T);
        Two {
            taking: Core::new(alloc, 0, &plan),
            called: Core::new(alloc, 0, &plan),
        }
    }

    fn take(&mut self, event: &CoreEvent) -> Result<Step, NoMemory>
        requires { (core : CoreState) → core.start ≡ 1700000000 → MayTake core event.now }
    {
        self.taking.take(*event)
    }

    fn call(&mut self, event: &CoreEvent) -> Result<Step, NoMemory>
        requires { (core : CoreState) → core.start ≡ 1700000000 → MayTake core event.now }
    {
        call(&mut self.called, event)
    }

    fn restart(&mut self) {
        self.taking.restart();
        self.called.restart();
    }
}

/// Makes the call that the event is.
fn call(core: &mut Core<Sha>, event: &CoreEvent) -> Result<Step, NoMemory>
    requires { MayTake core.old event.now }
    ensures { core.new.start ≡ core.old.start }
{
    match event {
        CoreEvent::Submission(from, second, item) => core.submission(*from, *second, *item),
        CoreEvent::Seal(second) => core.seal(*second),
        CoreEvent::Ballot(second) => core.ballot(*second),
        CoreEvent::Receive(from, second, message) => core.receive(*from, *second, message),
        CoreEvent::Tell(second) => core.tell(*second),
        CoreEvent::Respond(second) => core.respond(*second),
        CoreEvent::Publish(second) => core.publish(*second),
    }
}

/// The kinds of events.
const KINDS: [&str; 7] = [
    "submission",
    "seal",
    "ballot",
    "receive",
    "tell",
    "respond",
    "publish",
];

fn kind(event: &CoreEvent) -> usize {
    match event {
        CoreEvent::Submission(_, _, _) => 0,
        CoreEvent::Seal(_) => 1,
        CoreEvent::Ballot(_) => 2,
        CoreEvent::Receive(_, _, _) => 3,
        CoreEvent::Tell(_) => 4,
        CoreEvent::Respond(_) => 5,
        CoreEvent::Publish(_) => 6,
    }
}

fn is_done(step: &Result<Step, NoMemory>) -> bool {
    match step {
        Ok(step) => match step.answer {
            Answer::Done | Answer::Published(_) => true,
            _ => false,
        },
        Err(_) => false,
    }
}

/// An event in both cores: whether they did the same. It is noted where it was done.
fn happens(alloc: Global, two: &mut Two, done: &mut [bool; 7], event: &CoreEvent) -> bool
    requires { (core : CoreState) → core.start ≡ 1700000000 → MayTake core event.now }
{
    let taken = two.take(event);
    let called = two.call(event);
    if is_done(&taken) {
        done[kind(event) % 7] = true;
    }
    are_alike(alloc, &taken, &called)
}

/// Two seconds before the start, and nine from it on: the first ones come more often.
fn second(n: u64) -> u64
    ensures { result < 2 ^ 63 }
{
    match n % 8 {
        0 | 1 | 2 => T,
        3 | 4 => T + 1,
        5 => T - 2,
        _ => T + n / 8 % 9,
    }
}

/// The first second from this one on that something is held or sealed for, of all that events come for.
fn plain_next(core: &Core<Sha>, from: u64) -> Option<u64> {
    for t in T - 2..T + 9 {
        if t >= from && (core.held(t).is_some() || core.sealed(t).is_some()) {
            return Some(t);
        }
    }
    None
}

fn is_next(core: &Core<Sha>, from: u64) -> bool {
    core.next_second(from) == plain_next(core, from)
}

fn counted<L: Ledger>(core: &Core<Sha>, p: u64, blank: Blank) -> Option<u64>
    requires name { blank.name ≡ L.name }
    requires parts { blank.parts ≡ L.parts }
    requires one { blank.parts ≡ 1 }
{
    let mut steps = Steps::<L>::open(blank);
    core.first_not_held(p, &mut steps)
}

/// The first second from the start to T + 8 that is not held.
fn plain_not_held(core: &Core<Sha>) -> Option<u64> {
    for t in T..T + 9 {
        if core.held(t).is_none() {
            return Some(t);
        }
    }
    None
}

/// Whether the first second that is not held is that of a plain look.
fn is_not_held(core: &Core<Sha>) -> bool {
    counted::<Brand>(core, T + 8, Blank::new(1)) == plain_not_held(core)
}

/// Whether the next second is that of a plain look, from each of the seconds on, and from the first and the last there are, and
/// so is the first that is not held.
fn has_next(core: &Core<Sha>) -> bool {
    let mut same = is_not_held(core) && is_next(core, 0) && is_next(core, u64::MAX);
    for from in T - 3..T + 10 {
        same = same && is_next(core, from);
    }
    same
}

/// Now and then both restart, else an event comes. Whether both did the same, and the next seconds are right.
fn step(alloc: Global, two: &mut Two, done: &mut [bool; 7], n: u64) -> [bool; 2] {
    let alike = if n % 53 == 0 {
        two.restart();
        true
    } else {
        let t = second(n / 53);
        let candidate = two.taking.candidate(t).unwrap_or(Imprint::ZERO);
        happens(alloc, two, done, &event(t, candidate, n / 3816))
    };
    [alike, has_next(&two.taking)]
}

/// A hundred events, by the numbers that follow this one: the last number.
fn take_hundred(
    rt: &impl Abort,
    alloc: Global,
    two: &mut Two,
    done: &mut [bool; 7],
    first: u64,
) -> u64 {
    let mut n = first;
    for _ in 0..100usize {
        n = next(n);
        same(rt, n, step(alloc, two, done, n / 65_536), [true; 2]);
    }
    n
}

/// The same of new cores.
fn hundred(rt: &impl Abort, alloc: Global, done: &mut [bool; 7], first: u64) -> u64 {
    let mut two = Two::new(alloc);
    take_hundred(rt, alloc, &mut two, done, first)
}

#[test]
fn a_thousand_events_taken_and_called(rt: HostRuntime) {
    let mut done = [false; 7];
    let mut n: u64 = 26;
    for _ in 0..10usize {
        n = hundred(&rt, rt.alloc(), &mut done, n);
    }
    for (kind, done) in KINDS.iter().zip(done.iter()) {
        same(&rt, *kind, *done, true);
    }
}
