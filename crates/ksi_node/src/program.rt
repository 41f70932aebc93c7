// What the programs of nodes share.
ghost use Rattle.std.specs.Prelude.{◌≡◌, ◌≤◌, IsTrue, length, IfOk};
ghost use Rattle.std.specs.Process.{exit_status};
ghost use Rattle.ksi_disk.specs.Images.{Only};
ghost use Rattle.ksi_disk.specs.Host.{content_of, images_of};
ghost use Rattle.ksi_node.specs.Program.{IsEnded, IsPlanOf, PlanIn, puts_of, status_of};

use crate::failure::Failure;
use ksi_disk::{DiskFailed, HostDisk};
use ksi_imprint::Refused;
use ksi_ports::{Files, LoadRefusal, Sink, SinkFailed};
use ksi_schedule::{Plan, ScheduleFault, read_schedule};
use std::alloc::Global;
use std::process::ExitCode;

const MOST_PLAN: usize = 67_108_864;

/// The plan that a schedule file begins with. The file has at most 67,108,864 bytes.
///
/// # Errors
/// `Plan`: the file cannot be read, is too long, or is not a schedule. `Memory`.
pub fn plan_of<F: Files>(alloc: Global, files: &mut F, name: &str) -> Result<Plan, Failure>
    ensures plan { IsTrue F.tells →
        IsPlanOf (F.held files.old name.now) (F.load_faults files.old) (F.load_faults files.new) result }
    ensures stays { F.held files.new ≡ F.held files.old }
{
    match files.load(alloc, name, MOST_PLAN) {
        Ok(text) => plan_in(alloc, text.as_slice()),
        Err(LoadRefusal::Failed) => Err(Failure::Plan),
        Err(LoadRefusal::TooLong) => Err(Failure::Plan),
        Err(LoadRefusal::NoMemory) => Err(Failure::Memory),
    }
}

/// The plan that the text of a schedule begins with.
fn plan_in(alloc: Global, text: &[u8]) -> Result<Plan, Failure>
    ensures { PlanIn text.now result }
{
    match read_schedule(alloc, text) {
        Ok(schedule) => {
            let (plan, _) = schedule.into_parts();
            Ok(plan)
        }
        Err(Refused::Fault(ScheduleFault::Line(_, _))) => Err(Failure::Plan),
        Err(Refused::NoMemory) => Err(Failure::Memory),
    }
}

/// The disk over the file of this name in a folder, which is made if it is missing.
///
/// # Errors
/// `File`: it cannot be opened, or another process has it. `Memory`.
pub fn disk_at(rt: &HostRuntime, folder: &str, name: &str) -> Result<HostDisk, Failure>
    ensures durable { IfOk result (λ disk. Only (content_of disk) (images_of disk)) }
{
    match HostDisk::open(rt, folder, name) {
        Ok(disk) => Ok(disk),
        Err(error) => Err(Failure::of(&error, Failure::File)),
    }
}

/// The same disk, whose file is first formatted by `format` if it is empty. A disk that was written to is opened again, to be
/// read.
///
/// # Errors
/// `File`: it cannot be opened, or another process has it. `Disk`: it cannot be formatted. `Memory`.
pub fn formatted_disk<F: FnOnce(&mut HostDisk) -> Result<(), DiskFailed>>(
    rt: &HostRuntime,
    folder: &str,
    name: &str,
    format: F,
) -> Result<HostDisk, Failure>
    requires { (disk : _) → length (content_of disk.now) ≡ 0 → F.pre format disk }
    ensures durable { IfOk result (λ disk. Only (content_of disk) (images_of disk)) }
{
    {
        let mut disk = disk_at(rt, folder, name)?;
        if !disk.is_empty() {
            return Ok(disk);
        }
        if format(&mut disk).is_err() {
            return Err(Failure::Disk);
        }
    }
    disk_at(rt, folder, name)
}

/// The status of a run. After a failure its last line is `failed` and the failure's word.
pub fn end<S: Sink>(out: &mut S, outcome: Result<(), Failure>) -> ExitCode
    requires { 64 ≤ S.free out.old }
    ensures status { exit_status result ≡ status_of outcome }
    ensures line { IsTrue S.tells → IsEnded outcome (S.written out.old) (S.written out.new) (S.faults out.old) (S.faults out.new) }
    ensures puts { S.puts out.new ≡ puts_of outcome (S.puts out.old) }
{
    match outcome {
        Ok(()) => ExitCode::from(0),
        // nobody may be there to read the line
        Err(failure) => match out.put(failure.line()) {
            Ok(()) => ExitCode::from(1),
            Err(SinkFailed) => ExitCode::from(1),
        },
    }
}
