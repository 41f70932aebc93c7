// The command `whole`.
ghost use Rattle.std.specs.Prelude.{◌≡◌, IfOk};
ghost use Rattle.ksi_imprint.specs.Imprints.{imprint_of};
ghost use Rattle.ksi_journal.specs.File.{IsJournalFile};
ghost use Rattle.ksi_journal.specs.Written.{journal_text};
ghost use Rattle.ksi_top.specs.Promised.{Performed};
ghost use Rattle.ksi_top.specs.Whole.{IsWholeOf, made_whole, whole_command, whole_saved};

use crate::loading::load;
use crate::report::{Halt, Report, Saved, ended};
use crate::status::Status;
use ksi_imprint::{NoMemory, Refused, Sha};
use ksi_journal::{Journal, write};
use ksi_lines::Word::{Number, Text};
use ksi_lines::{not_whole_line, print};
use ksi_mirror::Mirror;
use ksi_ports::Files;
use std::alloc::Global;

/// Loads the mirror, and saves its journal.
pub(crate) fn whole<F: Files>(
    alloc: Global,
    files: &mut F,
    mirror: &str,
    out: &str,
) -> Result<Report, Halt>
    ensures { Performed F.Files (whole_command mirror.now out.now) files.old files.new result }
{
    let mirror = load::<Mirror, F>(alloc, files, 1, mirror)?;
    ended(made_whole(alloc, &mirror, out))
}

fn made_whole(alloc: Global, mirror: &Mirror, out: &str) -> Result<Report, NoMemory>
    ensures told { IfOk result (λ report. report ≡ made_whole out.now mirror.now) }
    ensures shown { IfOk result (IsWholeOf mirror.now out.now) }
{
    match ksi_mirror::whole::<Sha>(alloc, mirror) {
        Ok(journal) => whole_saved(alloc, &journal, out),
        Err(Refused::Fault(refusal)) => {
            let line = not_whole_line(&refusal);
            Ok(Report::new(Status::Refused, line))
        }
        Err(Refused::NoMemory) => Err(NoMemory),
    }
}

fn whole_saved(alloc: Global, journal: &Journal<Sha>, out: &str) -> Result<Report, NoMemory>
    ensures told { IfOk result (λ report. report ≡ whole_saved out.now journal.now) }
    ensures again { IfOk result (λ _. IsJournalFile imprint_of (journal_text journal.now) journal.now) }
{
    let text = write(alloc, journal)?;
    let line = print(
        Text("whole"),
        &[],
        &[Number(journal.seconds().len() as u64)],
    );
    Ok(Report::saving(line, Saved::named(alloc, out, text)?))
}
