ghost use Rattle.std.specs.Prelude.{◌≡◌, ◌+◌, ◌*◌, IsTrue, IfOk, OnOk, length};
ghost use Rattle.ksi_imprint.specs.Refused.{OrNoMemory};
ghost use Rattle.ksi_calendar_files.specs.File.{IsBounded};
ghost use Rattle.ksi_calendar_folder.specs.Folder.{end_of, file_in, file_of, follows, folder_of, Gives};

use crate::fault::FolderFault;
use crate::name::file_name;
use ksi_calendar_files::{CalendarFile, FILE_BYTES, FILE_SECONDS, read_file};
use ksi_imprint::Refused;
use ksi_ports::{Files, LoadRefusal};
use std::alloc::Global;

/// The file of this number.
pub(crate) fn load_file<F: Files>(
    alloc: Global,
    files: &mut F,
    folder: &str,
    number: u64,
) -> Result<CalendarFile, Refused<FolderFault>>
    ensures told { IsTrue F.tells → Gives (file_in (folder_of (F.held files.old) folder.now) number) result }
    ensures stays { F.held files.new ≡ F.held files.old }
    ensures number { IfOk result (λ file. file.number ≡ number) }
{
    let name = file_name(alloc, folder, number)?;
    match files.load(alloc, name.as_str(), FILE_BYTES) {
        Ok(bytes) => file_of(alloc, number, bytes.as_slice()),
        Err(LoadRefusal::Failed) => Err(Refused::Fault(FolderFault::Missing(number))),
        Err(LoadRefusal::TooLong) => Err(Refused::Fault(FolderFault::TooLong(number))),
        Err(LoadRefusal::NoMemory) => Err(Refused::NoMemory),
    }
}

/// The file of this number, from its bytes.
fn file_of(alloc: Global, number: u64, bytes: &[u8]) -> Result<CalendarFile, Refused<FolderFault>>
    ensures read { OrNoMemory (file_of number bytes.now) result }
    ensures number { IfOk result (λ file. file.number ≡ number) }
{
    match read_file(alloc, bytes) {
        Ok(file) => {
            let stated = file.number();
            if stated == number {
                Ok(file)
            } else {
                Err(Refused::Fault(FolderFault::OtherNumber { number, stated }))
            }
        }
        Err(Refused::Fault(fault)) => { Err(Refused::Fault(FolderFault::Malformed(number, fault))) }
        Err(Refused::NoMemory) => Err(Refused::NoMemory),
    }
}

/// Whether a file is full and of the plan of the last one.
pub(crate) fn check_follows(last: &CalendarFile, file: &CalendarFile) -> Result<(), FolderFault>
    ensures read { result ≡ follows last.now file.now }
    ensures start { OnOk result (file.now.start ≡ last.now.start) }
    ensures full { OnOk result (end_of file.now ≡ 4096 * (file.now.number + 1)) }
    ensures bounded { IsBounded file.now.start file.now.number (length file.now.roots) }
{
    let number = file.number();
    if file.plan() != last.plan() || file.start() != last.start() {
        return Err(FolderFault::OtherPlan(number));
    }
    let missing = file.first_second() + file.roots().len() as u64;
    if missing != FILE_SECONDS * (number + 1) {
        return Err(FolderFault::NotFull { number, missing });
    }
    Ok(())
}
