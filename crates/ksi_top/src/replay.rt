// The command `replay`.
ghost use Rattle.std.specs.Prelude.{◌≡◌, IfOk};
ghost use Rattle.ksi_imprint.specs.Imprints.{imprint_of};
ghost use Rattle.ksi_journal.specs.Journal.{IsJournal};
ghost use Rattle.ksi_replay.specs.Journals.{journal_of};
ghost use Rattle.ksi_top.specs.Promised.{Performed};
ghost use Rattle.ksi_top.specs.Replay.{counted, replay_command, replayed, replayed_line};

use crate::histories::histories_hold;
use crate::loading::load;
use crate::report::{Halt, Report, Saved, ended};
use ksi_imprint::{NoMemory, Sha};
use ksi_journal::Journal;
use ksi_lines::Word::{Number, Text};
use ksi_lines::{Line, print};
use ksi_ports::Files;
use ksi_replay::journal_of;
use ksi_schedule::Schedule;
use ksi_world::World;
use std::alloc::Global;

/// Loads the schedule, and saves the journal of what its events come to.
pub(crate) fn replay<F: Files>(
    alloc: Global,
    files: &mut F,
    schedule: &str,
    journal: &str,
) -> Result<Report, Halt>
    ensures { Performed F.Files (replay_command schedule.now journal.now) files.old files.new result }
{
    histories_hold();
    let schedule = load::<Schedule, F>(alloc, files, 1, schedule)?;
    ended(replayed(alloc, journal, schedule))
}

fn replayed(alloc: Global, name: &str, schedule: Schedule) -> Result<Report, NoMemory>
    ensures replayed { IfOk result (λ report. report ≡ replayed name.now schedule) }
    ensures lawful { IfOk result (λ _. IsJournal imprint_of (journal_of imprint_of schedule)) }
{
    let world = ksi_replay::replay::<Sha>(alloc, schedule)?;
    kept(alloc, name, world)
}

/// The journal of a world, saved under a name. The world is dropped before the bytes are made: it is the greatest of all.
fn kept(alloc: Global, name: &str, world: World<Sha>) -> Result<Report, NoMemory>
    ensures replayed { IfOk result (λ report. report ≡ replayed name.now world) }
    ensures lawful { IfOk result (λ _. IsJournal imprint_of (journal_of imprint_of world)) }
{
    let journal = journal_of(alloc, &world)?;
    let _start = journal.start();
    let line = counted(&world, &journal);
    drop(world);
    let bytes = ksi_journal::write(alloc, &journal)?;
    Ok(Report::saving(line, Saved::named(alloc, name, bytes)?))
}

/// How many events, messages, kept seconds, issued signatures and publications there are.
#[tactic(auto, unfolding(crate::specs::Replay::counted))]
fn counted(world: &World<Sha>, journal: &Journal<Sha>) -> Line
    ensures { result ≡ counted world.now journal.now }
{
    let events = world.events().len() as u64;
    let messages = world.wire().len() as u64;
    let seconds = journal.seconds().len() as u64;
    let issued = journal.issued().len() as u64;
    let published = journal.publications().len() as u64;
    counts_line(events, messages, seconds, issued, published)
}

fn counts_line(events: u64, messages: u64, seconds: u64, issued: u64, published: u64) -> Line
    ensures { result ≡ replayed_line events messages seconds issued published }
{
    print(
        Text("events"),
        &[Number(events), Text("messages"), Number(messages)],
        &[
            Text("seconds"),
            Number(seconds),
            Text("issued"),
            Number(issued),
            Text("published"),
            Number(published),
        ],
    )
}
