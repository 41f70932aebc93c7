// The command `front`.
ghost use Rattle.std.specs.Prelude.{◌≡◌, ◌≤◌, ◌<◌, ◌^◌, IfOk};
ghost use Rattle.ksi_calendar.specs.Covered.{IsCovered};
ghost use Rattle.ksi_journal.specs.Journal.{root_at};
ghost use Rattle.ksi_top.specs.Promised.{Performed};
ghost use Rattle.ksi_top.specs.Front.{IsFrontOver, SavesFront, front_command, front_saved, front_to, fronted};

use crate::kept::unkept;
use crate::loading::load;
use crate::report::{Halt, Report, Saved, ended};
use crate::status::Status;
use ksi_consistency::{Front, prove, write_front};
use ksi_imprint::{NoMemory, Sha};
use ksi_journal::Journal;
use ksi_journal::laws::calendar_is_covered;
use ksi_lines::Word::{Number, Text};
use ksi_lines::print;
use ksi_ports::Files;
use std::alloc::Global;

/// Loads the journal, and saves the front of its calendar to `p1` in that to `p2`.
pub(crate) fn front<F: Files>(
    alloc: Global,
    files: &mut F,
    journal: &str,
    p1: u64,
    p2: u64,
    out: &str,
) -> Result<Report, Halt>
    requires { p2 < 2 ^ 63 }
    ensures { Performed F.Files (front_command journal.now p1 p2 out.now) files.old files.new result }
{
    let journal = load::<Journal<Sha>, F>(alloc, files, 1, journal)?;
    ended(fronted(alloc, &journal, p1, p2, out))
}

fn fronted(
    alloc: Global,
    journal: &Journal<Sha>,
    p1: u64,
    p2: u64,
    out: &str,
) -> Result<Report, NoMemory>
    requires { p2 < 2 ^ 63 }
    ensures told { IfOk result (λ report. report ≡ fronted out.now p1 p2 journal.now) }
    ensures saved { IfOk result (IsFrontOver journal.now p1 p2 out.now) }
{
    if p2 < p1 {
        let values = [Number(p1), Number(p2)];
        let line = print(Text("refused"), &[Text("F4")], &values);
        return Ok(Report::new(Status::Refused, line));
    }
    match unkept(journal, p1, p2) {
        Some(report) => Ok(report),
        None => front_saved(alloc, journal, p1, p2, out),
    }
}

/// Of a journal that keeps all seconds to `p2`.
fn front_saved(
    alloc: Global,
    journal: &Journal<Sha>,
    p1: u64,
    p2: u64,
    out: &str,
) -> Result<Report, NoMemory>
    requires within { p1 ≤ p2 }
    requires early { p2 < 2 ^ 63 }
    requires covered { IsCovered (root_at journal.now) journal.now.start p2 }
    ensures told { IfOk result (λ report. report ≡ front_saved out.now (front_to journal.now p1 p2)) }
    ensures saved { IfOk result (SavesFront journal.now p1 p2 out.now) }
{
    calendar_is_covered();
    let _start = journal.start();
    let front = Front::new(p1, p2, prove(alloc, journal.calendar(), p1, p2)?);
    let text = write_front(alloc, &front)?;
    let imprints = front.list().len() as u64;
    let line = print(
        Text("front"),
        &[],
        &[Number(p1), Number(p2), Number(imprints)],
    );
    Ok(Report::saving(line, Saved::named(alloc, out, text)?))
}
