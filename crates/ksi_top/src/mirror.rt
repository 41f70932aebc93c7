// The command `mirror`.
ghost use Rattle.std.specs.Prelude.{◌≡◌, ◌<◌, IfOk};
ghost use Rattle.ksi_imprint.specs.Imprints.{imprint_of};
ghost use Rattle.ksi_replay.specs.Mirrors.{mirror_of};
ghost use Rattle.ksi_top.specs.Promised.{Performed};
ghost use Rattle.ksi_top.specs.Mirror.{mirror_command, mirror_saved, mirrored, mirrored_line, no_core_line};

use crate::loading::load;
use crate::report::{Halt, Report, Saved, ended};
use crate::status::Status;
use ksi_imprint::{NoMemory, Sha};
use ksi_lines::Word::{Number, Text};
use ksi_lines::print;
use ksi_mirror::laws::written_is_mirror;
use ksi_mirror::{Mirror, write_mirror};
use ksi_ports::Files;
use ksi_replay::laws::{history_has_mirrors, mirrors_of_a_history_merge};
use ksi_replay::mirror_of;
use ksi_schedule::Schedule;
use ksi_schedule::laws::spelled_is_schedule;
use std::alloc::Global;

/// Loads the schedule, and saves the mirror of what a core holds and has sealed after its events.
pub(crate) fn mirror<F: Files>(
    alloc: Global,
    files: &mut F,
    schedule: &str,
    core: u64,
    out: &str,
) -> Result<Report, Halt>
    ensures { Performed F.Files (mirror_command schedule.now core out.now) files.old files.new result }
{
    history_has_mirrors();
    mirrors_of_a_history_merge();
    spelled_is_schedule();
    written_is_mirror();
    let schedule = load::<Schedule, F>(alloc, files, 1, schedule)?;
    ended(mirrored(alloc, core, out, schedule))
}

fn mirrored(alloc: Global, core: u64, out: &str, schedule: Schedule) -> Result<Report, NoMemory>
    ensures { IfOk result (λ report. report ≡ mirrored core out.now schedule) }
{
    if core < u64::from(schedule.plan().cores()) {
        copied(alloc, core as u8, out, schedule)
    } else {
        let line = print(Text("no"), &[Text("core")], &[Number(core)]);
        Ok(Report::new(Status::Refused, line))
    }
}

/// The mirror of a core of the plan, saved.
fn copied(alloc: Global, core: u8, out: &str, schedule: Schedule) -> Result<Report, NoMemory>
    requires { core < schedule.plan.cores }
    ensures { IfOk result (λ report. report ≡ mirror_saved core out.now (mirror_of imprint_of schedule core)) }
{
    let world = ksi_replay::replay::<Sha>(alloc, schedule)?;
    let mirror = mirror_of(alloc, &world, core)?;
    drop(world);
    mirror_saved(alloc, u64::from(core), out, &mirror)
}

fn mirror_saved(alloc: Global, core: u64, out: &str, mirror: &Mirror) -> Result<Report, NoMemory>
    ensures { IfOk result (λ report. report ≡ mirror_saved core out.now mirror.now) }
{
    let text = write_mirror(alloc, mirror)?;
    let roots = mirror.roots().len() as u64;
    let line = print(Text("mirror"), &[], &[Number(core), Number(roots)]);
    Ok(Report::saving(line, Saved::named(alloc, out, text)?))
}
