// The command `sign`.
ghost use Rattle.std.specs.Prelude.{◌≡◌, IfOk};
ghost use Rattle.std.specs.Option.{option_copied};
ghost use Rattle.ksi_top.specs.Promised.{Performed};
ghost use Rattle.ksi_top.specs.Sign.{sign_command, signature_of, signed};

use crate::loading::load;
use crate::report::{Halt, Report, Saved, ended};
use crate::status::Status;
use ksi_imprint::{Bytes, NoMemory, Sha};
use ksi_journal::Journal;
use ksi_lines::Word::{Number, Text};
use ksi_lines::print;
use ksi_ports::Files;
use std::alloc::Global;

/// Loads the journal, and saves the signature of a number.
pub(crate) fn sign<F: Files>(
    alloc: Global,
    files: &mut F,
    journal: &str,
    number: u64,
    out: &str,
) -> Result<Report, Halt>
    ensures { Performed F.Files (sign_command journal.now number out.now) files.old files.new result }
{
    let journal = load::<Journal<Sha>, F>(alloc, files, 1, journal)?;
    let signature = signature_of(journal.issued(), number);
    ended(signed(alloc, number, out, signature))
}

/// The bytes with the number.
fn signature_of(issued: &[(u64, Bytes)], number: u64) -> Option<&Bytes>
    ensures { option_copied result ≡ signature_of number issued.now }
{
    'numbers: for signature in issued {
        if signature.0 == number {
            return Some(&signature.1);
        }
    }
    None
}

fn signed(
    alloc: Global,
    number: u64,
    out: &str,
    signature: Option<&Bytes>,
) -> Result<Report, NoMemory>
    ensures { IfOk result (λ report. report ≡ signed number out.now (option_copied signature.entry)) }
{
    match signature {
        Some(bytes) => {
            let line = print(Text("signed"), &[], &[Number(number)]);
            let bytes = Bytes::copy_of(alloc, bytes.as_slice())?;
            Ok(Report::saving(line, Saved::named(alloc, out, bytes)?))
        }
        None => {
            let line = print(Text("not"), &[Text("issued")], &[Number(number)]);
            Ok(Report::new(Status::Refused, line))
        }
    }
}
