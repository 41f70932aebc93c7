ghost use Rattle.std.specs.Prelude.{◌≡◌, IsTrue};
ghost use Rattle.ksi_calendar.specs.Calendar.{calendar_root, is_covered};
ghost use Rattle.ksi_calendar_folder.specs.Folder.{folder_of, Gives};
ghost use Rattle.ksi_calendar_folder.specs.Over.{root_in};

use crate::fault::FolderFault;
use crate::gathering::gather;
use ksi_calendar::Calendar;
use ksi_imprint::{Compress, Imprint, Refused};
use ksi_ports::Files;
use std::alloc::Global;

/// The root of the calendar from second 0 to `p`, over the files of a folder.
///
/// # Errors
/// As `gather`.
pub fn root<C: Compress, F: Files>(
    alloc: Global,
    files: &mut F,
    folder: &str,
    p: u64,
) -> Result<Imprint, Refused<FolderFault>>
    ensures told { IsTrue F.tells → Gives (root_in C.image (folder_of (F.held files.old) folder.now) p) result }
    ensures stays { F.held files.new ≡ F.held files.old }
{
    match gather::<C, F>(alloc, files, folder, p) {
        Ok(calendar) => Ok(root_of(&calendar, p)),
        Err(refused) => Err(refused),
    }
}

fn root_of<C: Compress>(calendar: &Calendar<C>, p: u64) -> Imprint
    requires { IsTrue (is_covered calendar.now p) }
    ensures { result ≡ calendar_root C.image calendar.now p }
{
    match calendar.root_to(p) {
        Some(root) => root,
        None => unreachable!(),
    }
}
