//! The compacted file of a node.
ghost use Rattle.std.specs.Prelude.{◌≡◌, ◌<◌, length, IfOk};
ghost use Rattle.ksi_disk.specs.Host.{content_of};

use ksi_disk::HostDisk;
use ksi_imprint::Sha;
use ksi_node::{Failure, disk_at};
use ksi_schedule::Plan;
use std::io::Write;

/// The folder of a node's file, the file's name in it, and the name of the new one.
#[derive(Clone, Copy)]
pub(crate) struct Names<'a> {
    pub folder: &'a str,
    pub name: &'a str,
    pub fresh: &'a str,
}

/// Lets the core of this number forget, if the plan has it.
pub(crate) fn forget_core(
    rt: &HostRuntime,
    plan: &Plan,
    number: u64,
    before: u64,
    names: &Names<'_>,
) -> Result<(), Failure> {
    if number >= u64::from(plan.cores()) {
        return Err(Failure::Node);
    }
    forget_seconds(rt, plan, number as u8, before, names)
}

/// Lets the aggregator of this number forget, if the plan has it.
pub(crate) fn forget_aggregator(
    rt: &HostRuntime,
    plan: &Plan,
    number: u64,
    before: u64,
    names: &Names<'_>,
) -> Result<(), Failure> {
    if number >= plan.aggregators() as u64 {
        return Err(Failure::Node);
    }
    forget_rounds(rt, plan, number as u32, before, names)
}

fn forget_seconds(
    rt: &HostRuntime,
    plan: &Plan,
    me: u8,
    before: u64,
    names: &Names<'_>,
) -> Result<(), Failure>
    requires { me < plan.now.cores }
{
    let disk = disk_at(rt, names.folder, names.name)?;
    let mut fresh = fresh_disk(rt, names)?;
    let core_plan = plan.core_plan();
    let alloc = rt.alloc();
    match ksi_forgetting::forget::<Sha, HostDisk, HostDisk>(
        alloc, me, core_plan, before, disk, &mut fresh,
    ) {
        Ok(done) => say(rt, done.left, done.records),
        Err((ksi_forgetting::ForgetRefusal::Old(ksi_nodestore::OpenRefusal::NoMemory), _)) => {
            Err(Failure::Memory)
        }
        Err((ksi_forgetting::ForgetRefusal::Old(_), _)) => Err(Failure::File),
        Err((ksi_forgetting::ForgetRefusal::New, _)) => Err(Failure::Disk),
    }
}

fn forget_rounds(
    rt: &HostRuntime,
    plan: &Plan,
    me: u32,
    before: u64,
    names: &Names<'_>,
) -> Result<(), Failure>
    requires { me < length plan.now.parents }
{
    let disk = disk_at(rt, names.folder, names.name)?;
    let mut fresh = fresh_disk(rt, names)?;
    let alloc = rt.alloc();
    match ksi_roundstore::forget::<Sha, HostDisk, HostDisk>(
        alloc, me, plan, before, disk, &mut fresh,
    ) {
        Ok(done) => say(rt, done.left, done.records),
        Err((ksi_roundstore::ForgetRefusal::Old(ksi_roundstore::OpenRefusal::NoMemory), _)) => {
            Err(Failure::Memory)
        }
        Err((ksi_roundstore::ForgetRefusal::Old(_), _)) => Err(Failure::File),
        Err((ksi_roundstore::ForgetRefusal::New, _)) => Err(Failure::Disk),
    }
}

/// The disk over the new file, which has to be empty.
fn fresh_disk(rt: &HostRuntime, names: &Names<'_>) -> Result<HostDisk, Failure>
    ensures { IfOk result (λ disk. length (content_of disk) ≡ 0) }
{
    let fresh = disk_at(rt, names.folder, names.fresh)?;
    if !fresh.is_empty() {
        return Err(Failure::File);
    }
    Ok(fresh)
}

/// The last line.
fn say(rt: &HostRuntime, left: u64, records: u64) -> Result<(), Failure> {
    let line = format!(in rt.alloc(); "left {left} of {records}\n")?;
    let mut out = rt.stdout();
    out.write_all(line.as_str().as_bytes())?;
    Ok(())
}
