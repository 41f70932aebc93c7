use ksi_calendar_files::FileFault;

/// Why a folder has no calendar to a second.
#[derive(Clone, Copy, Debug, PartialEq, Eq)]
pub enum FolderFault {
    /// The file of this number is not there, or cannot be read.
    Missing(u64),
    /// The file of this number has more bytes than a full file.
    TooLong(u64),
    /// The file of this number is no calendar file.
    Malformed(u64, FileFault),
    /// The file of this number has another one in its head.
    OtherNumber { number: u64, stated: u64 },
    /// The file of this number is of another plan than the last file.
    OtherPlan(u64),
    /// The file of this number ends before this second, and is not the last one.
    NotFull { number: u64, missing: u64 },
    /// The second is before the plan's first one.
    BeforeStart(u64),
    /// The last file ends before this second.
    Undecided(u64),
}
