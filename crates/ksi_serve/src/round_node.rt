ghost use Rattle.std.specs.Prelude.{◌<◌, length};

use ksi_disk::HostDisk;
use ksi_imprint::Sha;
use ksi_node::{Failure, HostOutlet, formatted_disk, serve_aggregator};
use ksi_roundstore::{OpenRefusal, RoundStore, format};
use ksi_schedule::Plan;
use std::io::BufReader;

/// Serves the aggregator of this number, if the plan has it.
pub(crate) fn serve_number(
    rt: &HostRuntime,
    plan: &Plan,
    number: u64,
    folder: &str,
    name: &str,
) -> Result<(), Failure> {
    if number >= plan.aggregators() as u64 {
        return Err(Failure::Node);
    }
    serve(rt, plan, number as u32, folder, name)
}

fn serve(rt: &HostRuntime, plan: &Plan, me: u32, folder: &str, name: &str) -> Result<(), Failure>
    requires { me < length plan.now.parents }
{
    let disk = formatted_disk(rt, folder, name, |disk| format(me, plan, disk))?;
    match RoundStore::<Sha, HostDisk>::open(rt.alloc(), me, plan, disk) {
        Ok(mut store) => {
            let mut reader = BufReader::new(rt.alloc(), rt.stdin())?;
            let mut out = HostOutlet::new(rt.stdout());
            serve_aggregator(rt.alloc(), plan, me, &mut store, &mut reader, &mut out)
        }
        Err((OpenRefusal::NoMemory, _)) => Err(Failure::Memory),
        Err((_, _)) => Err(Failure::File),
    }
}
