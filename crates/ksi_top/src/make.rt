// The command `make`.
ghost use Rattle.std.specs.Prelude.{◌≡◌, IfOk};
ghost use Rattle.ksi_schedule.specs.Printed.{schedule_text};
ghost use Rattle.ksi_schedule.specs.Spelled.{IsScheduleText};
ghost use Rattle.ksi_replay.specs.Generate.{generated};
ghost use Rattle.ksi_top.specs.Make.{IsMade, made};

use crate::report::{Report, Saved};
use ksi_imprint::NoMemory;
use ksi_lines::Word::{Number, Text};
use ksi_lines::print;
use ksi_replay::generate;
use ksi_schedule::Schedule;
use std::alloc::Global;

/// Makes the schedule of a number, and saves its text.
pub(crate) fn make(alloc: Global, number: u64, out: &str) -> Result<Report, NoMemory>
    ensures told { IfOk result (λ report. report ≡ made out.now (generated number)) }
    ensures headline { IfOk result (IsMade number out.now) }
{
    let schedule = generate(alloc, number)?;
    made(alloc, out, &schedule)
}

fn made(alloc: Global, out: &str, schedule: &Schedule) -> Result<Report, NoMemory>
    ensures made { IfOk result (λ report. report ≡ made out.now schedule.now) }
    ensures again { IfOk result (λ _. IsScheduleText (schedule_text schedule.now) schedule.now) }
{
    let text = ksi_schedule::print(alloc, schedule)?;
    let events = schedule.events().len() as u64;
    let line = print(Text("made"), &[], &[Number(events)]);
    Ok(Report::saving(line, Saved::named(alloc, out, text)?))
}
