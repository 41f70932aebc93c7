// The command `migrate`.
ghost use Rattle.std.specs.Prelude.{◌≡◌, ℕ, List, IfOk};
ghost use Rattle.ksi_imprint.specs.Imprints.{imprint_of};
ghost use Rattle.ksi_journal.specs.File.{IsJournalFile};
ghost use Rattle.ksi_journal.specs.Journal.{Contents};
ghost use Rattle.ksi_journal.specs.Written.{text_in};
ghost use Rattle.ksi_journal.specs.declared.version.Version.TheVariants as versions;
ghost use Rattle.ksi_top.specs.Promised.{Performed};
ghost use Rattle.ksi_top.specs.Migrate.{migrate_command, migrated};

use crate::loading::load;
use crate::report::{Halt, Report, Saved, ended};
use ksi_imprint::{Bytes, NoMemory, Refused, Sha};
use ksi_journal::laws::{file_is_journal, journal_is_read};
use ksi_journal::{Journal, Version, VersionRefusal, write_version};
use ksi_lines::Word::{Number, Text};
use ksi_lines::print;
use ksi_ports::Files;
use std::alloc::Global;

/// Loads the journal, of either version, and saves it in version 2.
pub(crate) fn migrate<F: Files>(
    alloc: Global,
    files: &mut F,
    old: &str,
    new: &str,
) -> Result<Report, Halt>
    ensures { Performed F.Files (migrate_command old.now new.now) files.old files.new result }
{
    journal_is_read();
    file_is_journal();
    let journal = load::<Journal<Sha>, F>(alloc, files, 1, old)?;
    ended(migrated(alloc, new, &journal))
}

fn migrated(alloc: Global, new: &str, journal: &Journal<Sha>) -> Result<Report, NoMemory>
    ensures migrated { IfOk result (λ report. report ≡ migrated new.now journal.now) }
    ensures again { IfOk result (λ _. IsJournalFile imprint_of (text_in versions.Two journal.now) journal.now) }
{
    let bytes = in_version_2(alloc, journal)?;
    let line = print(
        Text("migrated"),
        &[],
        &[Number(journal.seconds().len() as u64)],
    );
    Ok(Report::saving(line, Saved::named(alloc, new, bytes)?))
}

/// The text in version 2, which every journal has.
fn in_version_2(alloc: Global, journal: &Journal<Sha>) -> Result<Bytes, NoMemory>
    ensures text { IfOk result (λ text. text ≡ text_in versions.Two journal.now) }
    ensures again { IfOk result (λ text. IsJournalFile imprint_of text journal.now) }
{
    match write_version(alloc, journal, Version::Two) {
        Ok(bytes) => Ok(bytes),
        Err(Refused::Fault(VersionRefusal::NeedsTwo)) => unreachable!(),
        Err(Refused::NoMemory) => Err(NoMemory),
    }
}
