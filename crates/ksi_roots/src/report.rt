//! Statuses and lines.
ghost use Rattle.std.specs.Prelude.{◌≤◌, length};
ghost use Rattle.ksi_lines.specs.Printed.{room};

use ksi_calendar_auditor::AuditRefusal;
use ksi_calendar_files::FileFault;
use ksi_calendar_folder::FolderFault;
use ksi_imprint::{NoMemory, Refused};
use ksi_lines::Word::{Digest, Number, Text};
use ksi_lines::{Line, Word, before_start_line, print, undecided_line};
use ksi_ports::SaveRefusal;

/// What a run prints, and its exit status.
#[derive(Drop)]
pub(crate) struct Report {
    pub(crate) status: u8,
    pub(crate) line: Line,
}

impl Report {
    pub(crate) fn done(line: Line) -> Report {
        Report { status: 0, line }
    }

    pub(crate) fn refused(line: Line) -> Report {
        Report { status: 1, line }
    }

    pub(crate) fn malformed(line: Line) -> Report {
        Report { status: 3, line }
    }

    pub(crate) fn clash(line: Line) -> Report {
        Report { status: 6, line }
    }
}

/// What ends a command before its result.
#[derive(Drop)]
pub(crate) enum Halt {
    Reported(Report),
    Fault,
    NoMemory,
}

impl From<NoMemory> for Halt {
    fn from(_: NoMemory) -> Self {
        Halt::NoMemory
    }
}

impl From<SaveRefusal> for Halt {
    fn from(refusal: SaveRefusal) -> Self {
        match refusal {
            SaveRefusal::Failed => Halt::Fault,
            SaveRefusal::NoMemory => Halt::NoMemory,
        }
    }
}

impl From<Refused<FolderFault>> for Halt {
    fn from(refused: Refused<FolderFault>) -> Self {
        match refused {
            Refused::Fault(fault) => Halt::Reported(folder_report(fault)),
            Refused::NoMemory => Halt::NoMemory,
        }
    }
}

impl From<Refused<AuditRefusal>> for Halt {
    fn from(refused: Refused<AuditRefusal>) -> Self {
        match refused {
            Refused::Fault(refusal) => Halt::Reported(not_audited(refusal)),
            Refused::NoMemory => Halt::NoMemory,
        }
    }
}

/// The words have no command's form.
pub(crate) fn no_words() -> Report {
    Report {
        status: 2,
        line: print(Text("words"), &[Text("refused")], &[]),
    }
}

/// Word `n` is no second.
pub(crate) fn bad_word(n: u64) -> Report {
    Report {
        status: 2,
        line: print(Text("bad"), &[Text("word")], &[Number(n)]),
    }
}

/// File word `n` has too many bytes.
pub(crate) fn too_long(n: u64) -> Report {
    Report {
        status: 7,
        line: print(Text("too"), &[Text("long")], &[Number(n)]),
    }
}

/// A line of a list is no name of a file.
pub(crate) fn bad_name() -> Report {
    Report::malformed(print(Text("bad"), &[Text("name")], &[]))
}

/// Why a folder has no calendar to a second.
fn folder_report(fault: FolderFault) -> Report {
    match fault {
        FolderFault::Missing(number) => Report::refused(print(
            Text("missing"),
            &[Text("file")],
            &[Number(number)],
        )),
        FolderFault::TooLong(number) => Report {
            status: 7,
            line: print(
                Text("too"),
                &[Text("long"), Text("file")],
                &[Number(number)],
            ),
        },
        FolderFault::Malformed(number, fault) => file_report(number, fault),
        FolderFault::OtherNumber { number, stated } => malformed_file(
            number,
            "K5",
            &[Number(stated)],
        ),
        FolderFault::OtherPlan(number) => Report::refused(print(
            Text("other"),
            &[Text("plan"), Text("file")],
            &[Number(number)],
        )),
        FolderFault::NotFull { number, missing } => {
            Report::refused(print(
                Text("not"),
                &[Text("full"), Text("file")],
                &[Number(number), Number(missing)],
            ))
        }
        FolderFault::BeforeStart(p) => Report::refused(before_start_line(p)),
        FolderFault::Undecided(second) => Report::refused(undecided_line(second)),
    }
}

/// Why the items of a second are not those of a signature.
fn not_audited(refusal: AuditRefusal) -> Report {
    match refusal {
        AuditRefusal::OtherSecond(second) => Report::refused(print(
            Text("other"),
            &[Text("second")],
            &[Number(second)],
        )),
        AuditRefusal::NoItems(second) => Report::refused(print(
            Text("no"),
            &[Text("items")],
            &[Number(second)],
        )),
        AuditRefusal::OtherItems {
            second,
            root,
            given,
        } => Report::refused(print(
            Text("other"),
            &[Text("items")],
            &[Number(second), Digest(&root), Digest(&given)],
        )),
    }
}

/// Why a file is no calendar file.
fn file_report(number: u64, fault: FileFault) -> Report {
    match fault {
        FileFault::Magic => malformed_file(number, "K1", &[]),
        FileFault::Size { needed, given } => malformed_file(
            number,
            "K2",
            &[Number(needed as u64), Number(given as u64)],
        ),
        FileFault::Imprint(place) => malformed_file(number, "K3", &[Number(place as u64)]),
        FileFault::Bound(place) => malformed_file(number, "K4", &[Number(place as u64)]),
    }
}

fn malformed_file(number: u64, code: &str, values: &[Word<'_>]) -> Report
    requires code { length code.now ≤ 2 }
    requires values { room values.now ≤ 100 }
{
    Report::malformed(print(
        Text("malformed"),
        &[Text("file"), Number(number), Text(code)],
        values,
    ))
}
