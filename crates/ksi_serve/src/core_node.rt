ghost use Rattle.std.specs.Prelude.{◌<◌};

use ksi_disk::HostDisk;
use ksi_imprint::Sha;
use ksi_node::{Failure, HostOutlet, formatted_disk, serve_core};
use ksi_nodestore::{NodeStore, OpenRefusal, format};
use ksi_schedule::Plan;
use std::io::BufReader;

/// Serves the core of this number, if the plan has it.
pub(crate) fn serve_number(
    rt: &HostRuntime,
    plan: &Plan,
    number: u64,
    folder: &str,
    name: &str,
) -> Result<(), Failure> {
    if number >= u64::from(plan.cores()) {
        return Err(Failure::Node);
    }
    serve(rt, plan, number as u8, folder, name)
}

fn serve(rt: &HostRuntime, plan: &Plan, me: u8, folder: &str, name: &str) -> Result<(), Failure>
    requires { me < plan.now.cores }
{
    let core_plan = plan.core_plan();
    let disk = formatted_disk(rt, folder, name, |disk| format(me, core_plan, disk))?;
    match NodeStore::<Sha, HostDisk>::open(rt.alloc(), me, core_plan, disk) {
        Ok(mut store) => {
            let mut reader = BufReader::new(rt.alloc(), rt.stdin())?;
            let mut out = HostOutlet::new(rt.stdout());
            serve_core(rt.alloc(), plan, me, &mut store, &mut reader, &mut out)
        }
        Err((OpenRefusal::NoMemory, _)) => Err(Failure::Memory),
        Err((_, _)) => Err(Failure::File),
    }
}
