// Reading the text of a schedule, line by line.
ghost use Rattle.std.specs.Prelude.{◌≡◌, ◌≤◌, ◌-◌, ◌^◌, ◌∷◌, [], ℕ, length, Err, IsOk, IfSome};
ghost use Rattle.ksi_imprint.specs.declared.refused.Refused.TheVariants as refused;
ghost use Rattle.ksi_schedule.specs.Pieces.{lines, words};
ghost use Rattle.ksi_aggtree.specs.Names.{IsName};
ghost use Rattle.ksi_schedule.specs.Plans.{IsParent};
ghost use Rattle.ksi_schedule.specs.Events.{History};
ghost use Rattle.ksi_schedule.specs.Members.{AreSaid, taken_members, next_rising};
ghost use Rattle.ksi_schedule.specs.Lines.{history, nothing, version_in, takes_members, next_in, next_parent, within, number_behind, bare};
ghost use Rattle.ksi_schedule.specs.Spelled.{IsScheduleText, IsScheduleFault, IsWanting, IsWantingFrom, Tells, Gives, Refuses};
ghost use Rattle.ksi_schedule.specs.Reading.{Goes, Reads, on_line, read_from, schedule_at, words_left};
ghost use Rattle.ksi_schedule.specs.declared.fault.LineFault.{LineFault as TheLineFault};
ghost use Rattle.ksi_schedule.specs.declared.fault.ScheduleFault.TheVariants.{Line};

use crate::cut::{Words, cut, next_line, one};
use crate::decimal::read_number;
use crate::fault::{LineFault, ScheduleFault};
use crate::growing::reaches_core;
use crate::members::members;
use crate::parent::Parent;
use crate::plan::{Parents, Plan};
use crate::rows::{event, is, parent};
use crate::schedule::{Events, Schedule};
use crate::version::Version;
use ksi_imprint::Refused;
use ksi_synod::{CorePlan, PLAN_SECONDS, TOO_LATE, Voters};
use std::alloc::Global;

const AGGREGATORS: usize = 4096;

const EVENTS: usize = 1_000_000;

// 2^63 - 2^24.
const LAST_START: u64 = TOO_LATE - PLAN_SECONDS;

/// The schedule that the text spells.
///
/// # Errors
/// The first line that is not as it must be, with its fault; `NoMemory` where the schedule has no room for an aggregator
/// or an event, whose line has no fault.
#[tactic(auto, using(crate::proofs::Both::told, crate::proofs::Both::found, crate::proofs::Both::refused))]
pub fn read_schedule(alloc: Global, text: &[u8]) -> Result<Schedule, Refused<ScheduleFault>>
    ensures told { Tells text.now result }
    ensures found { (h : History) → IsScheduleText text.now h → Gives h result }
    ensures refused { (fault : TheLineFault) (n : ℕ) → IsScheduleFault text.now fault n → Refuses fault n result }
    ensures memory { result ≡ Err refused.NoMemory → IsWanting text.now }
{
    read(alloc, text)
}

#[tactic(auto, unfolding(crate::specs::Reading::schedule_at, crate::specs::Reading::read_from, crate::specs::Lines::with_line, crate::specs::Lines::number_in))]
fn read(alloc: Global, text: &[u8]) -> Result<Schedule, Refused<ScheduleFault>>
    ensures read { Reads (schedule_at text.now) result }
    ensures memory { result ≡ Err refused.NoMemory → IsWantingFrom nothing (lines text.now) }
{
    let Some((line, text)) = next_line(text) else {
        return Err(faulty(LineFault::Header, 1))
    };
    let Some(version) = version(line) else {
        return Err(faulty(LineFault::Header, 1))
    };
    let Some((line, text)) = next_line(text) else {
        return Err(faulty(LineFault::Header, 2))
    };
    let Some(cores) = number_line(b"cores", 1, 9, line) else {
        return Err(faulty(LineFault::Header, 2))
    };
    let Some((line, text)) = next_line(text) else {
        return Err(faulty(LineFault::Header, 3))
    };
    let Some(start) = number_line(b"start", 0, LAST_START, line) else {
        return Err(faulty(LineFault::Header, 3))
    };
    read_rest(version, bare(alloc, cores as u8, start), text)
}

fn version(line: &[u8]) -> Option<Version>
    ensures { result ≡ version_in line.now }
{
    if is(line, b"ksi-schedule 1") {
        Some(Version::One)
    } else if is(line, b"ksi-schedule 2") {
        Some(Version::Two)
    } else {
        None
    }
}

// The number of a line of a name and a number that lies between both bounds.
fn number_line(name: &[u8], low: u64, high: u64, line: &[u8]) -> Option<u64>
    ensures value { result ≡ within low high (number_behind name.now (words line.now)) }
    ensures low { IfSome result (λ n. low ≤ n) }
    ensures high { IfSome result (λ n. n ≤ high) }
{
    let (first, words) = cut(b' ', line);
    let number = number_after(name, first, words)?;
    if low <= number && number <= high {
        Some(number)
    } else {
        None
    }
}

fn number_after(name: &[u8], first: &[u8], words: Words<'_>) -> Option<u64>
    ensures { result ≡ number_behind name.now (first.now ∷ words_left words.entry) }
{
    let word = one(words)?;
    if is(first, name) {
        read_number(word)
    } else {
        None
    }
}

// The plan of these cores, all of which vote, and no aggregators; and no events.
fn bare(alloc: Global, cores: u8, start: u64) -> Schedule
    requires some { 1 ≤ cores }
    requires few { cores ≤ 9 }
    requires early { start ≤ 2 ^ 63 - 2 ^ 24 }
    ensures { result ≡ bare cores start }
{
    let parents = Parents::from_vec(Vec::new(alloc));
    let plan = Plan {
        core_plan: CorePlan::new(cores, start),
        parents,
    };
    Schedule::new(plan, Events::from_vec(Vec::new(alloc)))
}

// The lines behind the first three.
fn read_rest(
    version: Version,
    schedule: Schedule,
    text: &[u8],
) -> Result<Schedule, Refused<ScheduleFault>>
    ensures read { Reads (read_from 4 (lines text.now) (history version schedule)) result }
    ensures memory { result ≡ Err refused.NoMemory → IsWantingFrom (history version schedule) (lines text.now) }
{
    let mut schedule = schedule;
    let mut rest = text;
    let mut number: u64 = 4;
    'reading: while let Some((line, others)) = next_line(rest) {
        match take_line(version, &mut schedule, line) {
            Ok(()) => {}
            Err(refused) => return Err(on_line(number, refused)),
        }
        rest = others;
        number = number.saturating_add(1);
    }
    Ok(schedule)
}

fn on_line(number: u64, refused: Refused<LineFault>) -> Refused<ScheduleFault>
    ensures { result ≡ on_line number refused }
{
    match refused {
        Refused::Fault(fault) => faulty(fault, number),
        Refused::NoMemory => Refused::NoMemory,
    }
}

fn faulty(fault: LineFault, number: u64) -> Refused<ScheduleFault>
    ensures { result ≡ refused.Fault (Line fault number) }
{
    Refused::Fault(ScheduleFault::Line(fault, number))
}

// One line more.
#[tactic(auto, unfolding(crate::specs::Lines::next_in))]
fn take_line(
    version: Version,
    schedule: &mut Schedule,
    line: &[u8],
) -> Result<(), Refused<LineFault>>
    ensures read { Goes (next_in version schedule.old (words line.now)) schedule.new result }
    ensures memory { result ≡ Err refused.NoMemory → IsOk (next_in version schedule.old (words line.now)) }
{
    let (name, words) = cut(b' ', line);
    if schedule.events().len() >= EVENTS {
        return Err(Refused::Fault(LineFault::TooManyEvents));
    }
    if is(name, b"aggregator") && schedule.events().is_empty() {
        return match parent(version, schedule.plan(), words) {
            Ok((number, parent)) => take_parent(schedule, number, parent),
            Err(fault) => Err(Refused::Fault(fault)),
        };
    }
    if is(name, b"members") && takes_members(version, schedule) {
        return take_members(schedule, words);
    }
    match event(version, schedule.plan(), name, words) {
        Ok(event) => match schedule.push_event(event) {
            Ok(()) => Ok(()),
            Err(_) => Err(Refused::NoMemory),
        },
        Err(fault) => Err(Refused::Fault(fault)),
    }
}

// Whether a line may say who votes.
fn takes_members(version: Version, schedule: &Schedule) -> bool
    ensures { result ≡ takes_members version schedule.now }
{
    match version {
        Version::One => false,
        Version::Two => {
            schedule.plan().parents.as_slice().is_empty() && schedule.events().is_empty()
        }
    }
}

// Who votes from a second on.
#[tactic(auto, using(crate::proofs::Rising::next_said))]
fn take_members(schedule: &mut Schedule, words: Words<'_>) -> Result<(), Refused<LineFault>>
    requires none { schedule.old.events ≡ [] }
    requires alone { schedule.old.plan.parents ≡ [] }
    ensures read { Goes (taken_members schedule.old (words_left words.entry)) schedule.new result }
    ensures memory { result ≡ Err refused.NoMemory → ⊥ }
{
    match members(schedule.plan(), words) {
        Ok((second, voters)) => take_rising(schedule, second, voters),
        Err(fault) => Err(Refused::Fault(fault)),
    }
}

// These vote from the second on, where they rise.
fn take_rising(
    schedule: &mut Schedule,
    second: u64,
    voters: Option<Voters>,
) -> Result<(), Refused<LineFault>>
    requires none { schedule.old.events ≡ [] }
    requires alone { schedule.old.plan.parents ≡ [] }
    requires there { AreSaid schedule.old.plan (second, voters) }
    ensures read { Goes (next_rising schedule.old (second, voters)) schedule.new result }
    ensures memory { result ≡ Err refused.NoMemory → ⊥ }
{
    let Some(voters) = voters else {
        return Err(Refused::Fault(LineFault::Header))
    };
    if !schedule.plan().core_plan().has_room(second) {
        return Err(Refused::Fault(LineFault::Header));
    }
    schedule.add_voters(second, &voters);
    Ok(())
}

// One aggregator more, of this number.
#[tactic(auto, unfolding(crate::specs::Lines::next_parent))]
fn take_parent(
    schedule: &mut Schedule,
    number: u64,
    parent: Parent,
) -> Result<(), Refused<LineFault>>
    requires none { schedule.old.events ≡ [] }
    requires there { IsParent schedule.old.plan.cores (length schedule.old.plan.parents) parent.actor }
    requires named { IfSome parent.name IsName }
    ensures read { Goes (next_parent schedule.old (number, parent)) schedule.new result }
    ensures memory { result ≡ Err refused.NoMemory → IsOk (next_parent schedule.old (number, parent)) }
{
    let count = schedule.plan().aggregators();
    if number != count as u64
        || count >= AGGREGATORS
        || !reaches_core(schedule.plan(), 7, parent.actor)
    {
        return Err(Refused::Fault(LineFault::Header));
    }
    match schedule.push_parent(parent) {
        Ok(()) => Ok(()),
        Err(_) => Err(Refused::NoMemory),
    }
}
