ghost use Rattle.std.specs.List.{AllByRecursion};
ghost use Rattle.std.specs.Prelude.{◌≡◌, ◌≤◌, ◌+◌, ◌/◌, ◌^◌, [], IsTrue, IfOk, OnOk, length};
ghost use Rattle.ksi_imprint.specs.Imprints.{IsImprint};
ghost use Rattle.ksi_calendar.specs.Calendar.{is_covered};
ghost use Rattle.ksi_calendar_files.specs.File.{first_second};
ghost use Rattle.ksi_calendar_folder.specs.Folder.{all_full, from_start, full_in, folder_of, reaching, seconds_to, with_full, Adds, Gives};

use crate::fault::FolderFault;
use crate::loading::{check_follows, load_file};
use ksi_calendar::Calendar;
use ksi_calendar_files::{CalendarFile, FILE_SECONDS};
use ksi_imprint::{Compress, Refused};
use ksi_ports::Files;
use std::alloc::Global;

/// The calendar of the seconds of the plan's files, from its first second to the end of the file of `p`. It takes up to 66 bytes
/// a second.
///
/// # Errors
/// The first of these: the file of `p` is missing, malformed or of another number; `p` is before the plan's first second; a
/// file before it, the first one first, is missing, malformed, of another number or plan, or not full; the file of `p` ends before
/// it. `NoMemory`: no calendar is returned.
pub fn gather<C: Compress, F: Files>(
    alloc: Global,
    files: &mut F,
    folder: &str,
    p: u64,
) -> Result<Calendar<C>, Refused<FolderFault>>
    ensures told { IsTrue F.tells → Gives (seconds_to (folder_of (F.held files.old) folder.now) p) result }
    ensures stays { F.held files.new ≡ F.held files.old }
    ensures covered { IfOk result (λ seconds. IsTrue (is_covered seconds p)) }
    ensures imprints { IfOk result (λ seconds. AllByRecursion IsImprint seconds.roots) }
{
    match load_file(alloc, files, folder, p / FILE_SECONDS) {
        Ok(last) => gather_to(alloc, files, folder, &last, p),
        Err(refused) => Err(refused),
    }
}

/// The calendar of the seconds to the end of the last file, which is that of `p`.
fn gather_to<C: Compress, F: Files>(
    alloc: Global,
    files: &mut F,
    folder: &str,
    last: &CalendarFile,
    p: u64,
) -> Result<Calendar<C>, Refused<FolderFault>>
    requires { last.now.number ≡ p / 4096 }
    ensures told { IsTrue F.tells → Gives (from_start (folder_of (F.held files.old) folder.now) p last.now) result }
    ensures stays { F.held files.new ≡ F.held files.old }
    ensures covered { IfOk result (λ seconds. IsTrue (is_covered seconds p)) }
    ensures imprints { IfOk result (λ seconds. AllByRecursion IsImprint seconds.roots) }
{
    let start = last.start();
    if p < start {
        return Err(Refused::Fault(FolderFault::BeforeStart(p)));
    }
    let mut calendar = Calendar::new(alloc, start)?;
    if let Err(refused) = add_full(alloc, files, folder, last, &mut calendar) {
        return Err(refused);
    }
    last.has_imprints();
    calendar.append_all(last.roots())?;
    reaching(calendar, p)
}

/// The calendar, if it reaches `p`.
fn reaching<C: Compress>(calendar: Calendar<C>, p: u64) -> Result<Calendar<C>, Refused<FolderFault>>
    requires from { calendar.start ≤ p }
    requires few { calendar.start + length calendar.roots ≤ 2 ^ 63 }
    requires imprints { AllByRecursion IsImprint calendar.roots }
    ensures told { Gives (reaching p calendar) result }
    ensures covered { IfOk result (λ seconds. IsTrue (is_covered seconds p)) }
    ensures imprints { IfOk result (λ seconds. AllByRecursion IsImprint seconds.roots) }
{
    let end = calendar.start() + calendar.count();
    if end <= p {
        Err(Refused::Fault(FolderFault::Undecided(end)))
    } else {
        Ok(calendar)
    }
}

/// Adds the seconds of all files before the last one.
fn add_full<C: Compress, F: Files>(
    alloc: Global,
    files: &mut F,
    folder: &str,
    last: &CalendarFile,
    calendar: &mut Calendar<C>,
) -> Result<(), Refused<FolderFault>>
    requires empty { calendar.old ≡ record { start = last.now.start; roots = [] } }
    requires from { last.now.start / 4096 ≤ last.now.number }
    ensures told { IsTrue F.tells → Adds (all_full last.now (folder_of (F.held files.old) folder.now)) calendar.new result }
    ensures stays { F.held files.new ≡ F.held files.old }
    ensures start { calendar.new.start ≡ last.now.start }
    ensures end { OnOk result (calendar.new.start + length calendar.new.roots ≡ first_second last.now.start last.now.number) }
    ensures imprints { AllByRecursion IsImprint calendar.new.roots }
{
    let first = last.start() / FILE_SECONDS;
    'files: for number in first..last.number() {
        if let Err(refused) = add_file(alloc, files, folder, last, number, calendar) {
            return Err(refused);
        }
    }
    Ok(())
}

/// Adds the seconds of the next file, which is not the last one.
fn add_file<C: Compress, F: Files>(
    alloc: Global,
    files: &mut F,
    folder: &str,
    last: &CalendarFile,
    number: u64,
    calendar: &mut Calendar<C>,
) -> Result<(), Refused<FolderFault>>
    requires start { calendar.old.start ≡ last.now.start }
    requires end { calendar.old.start + length calendar.old.roots ≡ first_second last.now.start number }
    requires imprints { AllByRecursion IsImprint calendar.old.roots }
    ensures told { IsTrue F.tells → Adds (full_in last.now (folder_of (F.held files.old) folder.now) calendar.old.roots number) calendar.new result }
    ensures stays { F.held files.new ≡ F.held files.old }
    ensures start { calendar.new.start ≡ last.now.start }
    ensures end { OnOk result (calendar.new.start + length calendar.new.roots ≡ first_second last.now.start (number + 1)) }
    ensures imprints { AllByRecursion IsImprint calendar.new.roots }
{
    match load_file(alloc, files, folder, number) {
        Ok(file) => add_full_file(last, &file, calendar),
        Err(refused) => Err(refused),
    }
}

/// Adds the seconds of a file, if it is full and of the plan of the last one.
fn add_full_file<C: Compress>(
    last: &CalendarFile,
    file: &CalendarFile,
    calendar: &mut Calendar<C>,
) -> Result<(), Refused<FolderFault>>
    requires start { calendar.old.start ≡ last.now.start }
    requires end { calendar.old.start + length calendar.old.roots ≡ first_second last.now.start file.now.number }
    requires imprints { AllByRecursion IsImprint calendar.old.roots }
    ensures told { Adds (with_full last.now file.now calendar.old.roots) calendar.new result }
    ensures start { calendar.new.start ≡ last.now.start }
    ensures end { OnOk result (calendar.new.start + length calendar.new.roots ≡ first_second last.now.start (file.now.number + 1)) }
    ensures imprints { AllByRecursion IsImprint calendar.new.roots }
{
    if let Err(fault) = check_follows(last, file) {
        return Err(Refused::Fault(fault));
    }
    file.has_imprints();
    calendar.append_all(file.roots())?;
    Ok(())
}
