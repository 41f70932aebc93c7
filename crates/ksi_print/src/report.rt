//! Statuses and lines.
use ksi_imprint::Imprint;
use ksi_lines::Word::{Digest, Number, Text};
use ksi_lines::{Line, print};
use ksi_printed::PrintFault;

/// What a run prints, and its exit status.
#[derive(Drop)]
pub(crate) struct Report {
    pub(crate) status: u8,
    pub(crate) line: Line,
}

impl Report {
    pub(crate) fn malformed(line: Line) -> Report {
        Report { status: 3, line }
    }
}

/// What ends a command before its result.
#[derive(Drop)]
pub(crate) enum Halt {
    Reported(Report),
    Fault,
    NoMemory,
}

/// The words have no command's form.
pub(crate) fn no_words() -> Report {
    Report {
        status: 2,
        line: print(Text("words"), &[Text("refused")], &[]),
    }
}

/// Word `n` is no second of at most twelve digits.
pub(crate) fn bad_word(n: u64) -> Report {
    Report {
        status: 2,
        line: print(Text("bad"), &[Text("word")], &[Number(n)]),
    }
}

/// File word `n` has too many bytes.
pub(crate) fn too_long(n: u64) -> Report {
    Report {
        status: 7,
        line: print(Text("too"), &[Text("long")], &[Number(n)]),
    }
}

/// The publications file has no publication of this second.
pub(crate) fn no_publication(second: u64) -> Report {
    Report {
        status: 1,
        line: print(Text("no"), &[Text("publication")], &[Number(second)]),
    }
}

/// The second and the root of a text.
pub(crate) fn read_line(second: u64, root: &Imprint) -> Line {
    print(Text("read"), &[], &[Number(second), Digest(root)])
}

/// Why a text is not that of a publication.
pub(crate) fn not_read(fault: PrintFault) -> Report {
    Report::malformed(match fault {
        PrintFault::Characters(given) => print(
            Text("not"),
            &[Text("135"), Text("characters")],
            &[Number(given as u64)],
        ),
        PrintFault::Group(number) => print(
            Text("group"),
            &[Number(number as u64)],
            &[Text("is"), Text("wrong")],
        ),
        PrintFault::Sum => print(Text("check"), &[Text("sum"), Text("differs")], &[]),
        PrintFault::Date => print(Text("date"), &[Text("differs")], &[]),
    })
}
