// The command `compare`.
ghost use Rattle.std.specs.Prelude.{◌≡◌, IfOk};
ghost use Rattle.ksi_calendar.specs.Covered.{IsCovered};
ghost use Rattle.ksi_journal.specs.Journal.{root_at};
ghost use Rattle.ksi_top.specs.Promised.{Performed};
ghost use Rattle.ksi_top.specs.Compare.{IsAnsweredBy, IsComparedBy, compare_beside, compare_command, compare_over, compared_as, compared_by, compared_report, compared_status};

use crate::kept::unkept;
use crate::loading::load;
use crate::report::{Halt, Report, ended};
use crate::status::Status;
use ksi_consistency::{Compared, Front};
use ksi_imprint::{NoMemory, Sha};
use ksi_journal::Journal;
use ksi_journal::laws::calendar_is_covered;
use ksi_lines::compared_line;
use ksi_ports::Files;
use std::alloc::Global;

/// Loads the older journal, then the newer one, then the front, and compares the calendars by it.
pub(crate) fn compare<F: Files>(
    alloc: Global,
    files: &mut F,
    old: &str,
    new: &str,
    proof: &str,
) -> Result<Report, Halt>
    ensures { Performed F.Files (compare_command old.now new.now proof.now) files.old files.new result }
{
    let old = load::<Journal<Sha>, F>(alloc, files, 1, old)?;
    compare_beside(alloc, files, &old, new, proof)
}

/// Loads the newer journal, then the front.
fn compare_beside<F: Files>(
    alloc: Global,
    files: &mut F,
    old: &Journal<Sha>,
    new: &str,
    proof: &str,
) -> Result<Report, Halt>
    ensures { Performed F.Files (compare_beside old.now new.now proof.now) files.old files.new result }
{
    let new = load::<Journal<Sha>, F>(alloc, files, 2, new)?;
    compare_over(alloc, files, old, &new, proof)
}

/// Loads the front, and compares the calendars.
fn compare_over<F: Files>(
    alloc: Global,
    files: &mut F,
    old: &Journal<Sha>,
    new: &Journal<Sha>,
    proof: &str,
) -> Result<Report, Halt>
    ensures { Performed F.Files (compare_over old.now new.now proof.now) files.old files.new result }
{
    let front = load::<Front, F>(alloc, files, 3, proof)?;
    ended(compared(alloc, old, new, &front))
}

fn compared(
    alloc: Global,
    old: &Journal<Sha>,
    new: &Journal<Sha>,
    front: &Front,
) -> Result<Report, NoMemory>
    ensures told { IfOk result (λ report. report ≡ compared_as old.now new.now front.now) }
    ensures shown { IfOk result (IsComparedBy old.now new.now front.now) }
{
    let p1 = front.p1();
    let p2 = front.p2();
    if let Some(report) = unkept(old, p1, p1) {
        return Ok(report);
    }
    if let Some(report) = unkept(new, p2, p2) {
        return Ok(report);
    }
    answer(alloc, old, new, front)
}

/// Of journals that keep all seconds to the front's.
fn answer(
    alloc: Global,
    old: &Journal<Sha>,
    new: &Journal<Sha>,
    front: &Front,
) -> Result<Report, NoMemory>
    requires old_covered { IsCovered (root_at old.now) old.now.start front.now.p1 }
    requires new_covered { IsCovered (root_at new.now) new.now.start front.now.p2 }
    ensures told { IfOk result (λ report. report ≡ compared_report front.now.p1 (compared_by old.now new.now front.now)) }
    ensures shown { IfOk result (IsAnsweredBy old.now new.now front.now) }
{
    calendar_is_covered();
    let _starts = (old.start(), new.start());
    let p1 = front.p1();
    let p2 = front.p2();
    let compared = ksi_consistency::compare::<Sha>(
        alloc,
        old.calendar(),
        new.calendar(),
        p1,
        p2,
        front.list(),
    )?;
    let line = compared_line(alloc, p1, &compared)?;
    Ok(Report::new(status_of(&compared), line))
}

fn status_of(compared: &Compared) -> Status
    ensures { result ≡ compared_status compared.now }
{
    match compared {
        Compared::NotAccepted(_) => Status::Refused,
        Compared::Equal => Status::Done,
        Compared::Clash(_) => Status::Clash,
    }
}
