// The command `merge`.
ghost use Rattle.std.specs.Prelude.{◌≡◌, IfOk};
ghost use Rattle.ksi_mirror.specs.File.{IsMirrorFile};
ghost use Rattle.ksi_mirror.specs.Written.{mirror_text};
ghost use Rattle.ksi_top.specs.Promised.{Performed};
ghost use Rattle.ksi_top.specs.Merge.{IsMergedBy, merge_command, merge_over, merged, merged_saved};

use crate::loading::load;
use crate::report::{Halt, Report, Saved, ended};
use crate::status::Status;
use ksi_imprint::{NoMemory, Refused};
use ksi_lines::Word::{Number, Text};
use ksi_lines::{not_merged_line, print};
use ksi_mirror::laws::{merged_is_a_join, mirror_is_kept, mirror_is_read};
use ksi_mirror::{Mirror, write_mirror};
use ksi_ports::Files;
use std::alloc::Global;

/// Loads both mirrors, and saves their union.
pub(crate) fn merge<F: Files>(
    alloc: Global,
    files: &mut F,
    one: &str,
    two: &str,
    out: &str,
) -> Result<Report, Halt>
    ensures { Performed F.Files (merge_command one.now two.now out.now) files.old files.new result }
{
    mirror_is_read();
    merged_is_a_join();
    let mirror = load::<Mirror, F>(alloc, files, 1, one)?;
    mirror_is_kept(&mirror);
    merge_over(alloc, files, &mirror, two, out)
}

/// Loads the second mirror.
fn merge_over<F: Files>(
    alloc: Global,
    files: &mut F,
    one: &Mirror,
    two: &str,
    out: &str,
) -> Result<Report, Halt>
    ensures { Performed F.Files (merge_over one.now two.now out.now) files.old files.new result }
{
    let mirror = load::<Mirror, F>(alloc, files, 2, two)?;
    ended(merged(alloc, one, &mirror, out))
}

fn merged(alloc: Global, one: &Mirror, two: &Mirror, out: &str) -> Result<Report, NoMemory>
    ensures told { IfOk result (λ report. report ≡ merged out.now one.now two.now) }
    ensures shown { IfOk result (IsMergedBy one.now two.now out.now) }
{
    merged_is_a_join();
    mirror_is_kept(one);
    mirror_is_kept(two);
    match ksi_mirror::merge(alloc, one, two) {
        Ok(union) => merged_saved(alloc, &union, out),
        Err(Refused::Fault(refusal)) => {
            let line = not_merged_line(&refusal);
            Ok(Report::new(Status::Refused, line))
        }
        Err(Refused::NoMemory) => Err(NoMemory),
    }
}

fn merged_saved(alloc: Global, merged: &Mirror, out: &str) -> Result<Report, NoMemory>
    ensures told { IfOk result (λ report. report ≡ merged_saved out.now merged.now) }
    ensures again { IfOk result (λ _. IsMirrorFile (mirror_text merged.now) merged.now) }
{
    let text = write_mirror(alloc, merged)?;
    let line = print(Text("merged"), &[], &[Number(merged.roots().len() as u64)]);
    Ok(Report::saving(line, Saved::named(alloc, out, text)?))
}
