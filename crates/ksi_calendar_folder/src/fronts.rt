ghost use Rattle.std.specs.Prelude.{◌≡◌, ◌≤◌, ◌<◌, ◌^◌, IsTrue};
ghost use Rattle.ksi_calendar.specs.Calendar.{is_covered};
ghost use Rattle.ksi_calendar_folder.specs.Folder.{folder_of, Gives};
ghost use Rattle.ksi_calendar_folder.specs.Over.{front_in, front_over};

use crate::fault::FolderFault;
use crate::gathering::gather;
use ksi_calendar::Calendar;
use ksi_consistency::{Front, prove};
use ksi_imprint::{Compress, Refused};
use ksi_ports::Files;
use std::alloc::Global;

/// The front of the calendar to `p1` in that to `p2`, over the files of a folder.
///
/// # Errors
/// As `gather` to `p2`; then `p1` is before the plan's first second.
pub fn front<C: Compress, F: Files>(
    alloc: Global,
    files: &mut F,
    folder: &str,
    p1: u64,
    p2: u64,
) -> Result<Front, Refused<FolderFault>>
    requires within { p1 ≤ p2 }
    requires early { p2 < 2 ^ 63 }
    ensures told { IsTrue F.tells → Gives (front_in C.image (folder_of (F.held files.old) folder.now) p1 p2) result }
    ensures stays { F.held files.new ≡ F.held files.old }
{
    match gather::<C, F>(alloc, files, folder, p2) {
        Ok(calendar) => front_of(alloc, &calendar, p1, p2),
        Err(refused) => Err(refused),
    }
}

/// The front of the calendar to `p1`, which is not before the first second.
fn front_of<C: Compress>(
    alloc: Global,
    calendar: &Calendar<C>,
    p1: u64,
    p2: u64,
) -> Result<Front, Refused<FolderFault>>
    requires within { p1 ≤ p2 }
    requires early { p2 < 2 ^ 63 }
    requires covered { IsTrue (is_covered calendar.now p2) }
    ensures { Gives (front_over C.image p1 p2 calendar.now) result }
{
    if p1 < calendar.start() {
        return Err(Refused::Fault(FolderFault::BeforeStart(p1)));
    }
    let list = prove(alloc, calendar, p1, p2)?;
    Ok(Front::new(p1, p2, list))
}
