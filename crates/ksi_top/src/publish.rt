// The command `publish`.
ghost use Rattle.std.specs.Prelude.{◌≡◌, IfOk};
ghost use Rattle.ksi_top.specs.Promised.{Performed};
ghost use Rattle.ksi_top.specs.Publish.{last_time, publish_command, published};

use crate::loading::load;
use crate::report::{Halt, Report, Saved, ended};
use ksi_imprint::{Imprint, NoMemory, Sha};
use ksi_journal::Journal;
use ksi_lines::Word::{Number, Text};
use ksi_lines::print;
use ksi_ports::Files;
use std::alloc::Global;

/// Loads the journal, and saves a publications file of its publications.
pub(crate) fn publish<F: Files>(
    alloc: Global,
    files: &mut F,
    journal: &str,
    out: &str,
) -> Result<Report, Halt>
    ensures { Performed F.Files (publish_command journal.now out.now) files.old files.new result }
{
    let journal = load::<Journal<Sha>, F>(alloc, files, 1, journal)?;
    ended(published(alloc, out, journal.publications()))
}

fn published(alloc: Global, out: &str, publications: &[(u64, Imprint)]) -> Result<Report, NoMemory>
    ensures { IfOk result (λ report. report ≡ published out.now publications.now) }
{
    let bytes = ksi_publications::write(alloc, last_time(publications), publications)?;
    let line = print(Text("published"), &[], &[Number(publications.len() as u64)]);
    Ok(Report::saving(line, Saved::named(alloc, out, bytes)?))
}

/// The time of the last publication, or 0 if there is none.
fn last_time(publications: &[(u64, Imprint)]) -> u64
    ensures { result ≡ last_time publications.now }
{
    match publications.last() {
        Some(publication) => publication.0,
        None => 0,
    }
}
