// The command `node`.
ghost use Rattle.std.specs.Prelude.{◌≡◌, ◌<◌, IfOk};
ghost use Rattle.ksi_top.specs.Promised.{Performed};
ghost use Rattle.ksi_top.specs.Node.{IsNodeOver, SavesNode, node_command, node_line, node_saved, noded};
ghost use Rattle.ksi_top.specs.Reports.{saving};

use crate::loading::load;
use crate::report::{Halt, Report, Saved, ended};
use crate::status::Status;
use ksi_imprint::{Bytes, NoMemory, Sha};
use ksi_lines::Word::{Number, Text};
use ksi_lines::print;
use ksi_node_file::{NodeFile, node_file};
use ksi_ports::Files;
use ksi_schedule::Schedule;
use std::alloc::Global;

/// Loads the schedule, and saves the file of what a core stored in its events.
pub(crate) fn node<F: Files>(
    alloc: Global,
    files: &mut F,
    schedule: &str,
    core: u64,
    out: &str,
) -> Result<Report, Halt>
    ensures { Performed F.Files (node_command schedule.now core out.now) files.old files.new result }
{
    let schedule = load::<Schedule, F>(alloc, files, 1, schedule)?;
    ended(noded(alloc, &schedule, core, out))
}

fn noded(alloc: Global, schedule: &Schedule, core: u64, out: &str) -> Result<Report, NoMemory>
    ensures told { IfOk result (λ report. report ≡ noded out.now core schedule.now) }
    ensures over { IfOk result (IsNodeOver schedule.now core out.now) }
{
    if core < u64::from(schedule.plan().cores()) {
        node_saved(alloc, schedule, core as u8, out)
    } else {
        let line = print(Text("no"), &[Text("core")], &[Number(core)]);
        Ok(Report::new(Status::Refused, line))
    }
}

/// Of a core of the plan.
fn node_saved(alloc: Global, schedule: &Schedule, core: u8, out: &str) -> Result<Report, NoMemory>
    requires { core < schedule.now.plan.cores }
    ensures told { IfOk result (λ report. report ≡ node_saved out.now core schedule.now) }
    ensures saved { IfOk result (SavesNode schedule.now core out.now) }
{
    let NodeFile { bytes, records } = node_file::<Sha>(alloc, schedule, core)?;
    saving(alloc, u64::from(core), records, bytes, out)
}

fn saving(
    alloc: Global,
    core: u64,
    records: u64,
    bytes: Bytes,
    out: &str,
) -> Result<Report, NoMemory>
    ensures { IfOk result (λ report. report ≡ saving (node_line core records) out.now bytes) }
{
    let line = print(
        Text("node"),
        &[],
        &[Number(core), Text("records"), Number(records)],
    );
    Ok(Report::saving(line, Saved::named(alloc, out, bytes)?))
}
