// The command `inspect`.
ghost use Rattle.std.specs.Prelude.{◌≡◌};
ghost use Rattle.ksi_top.specs.Promised.{Performed};
ghost use Rattle.ksi_top.specs.Inspect.{inspect_command, said_of};

use crate::loading::load;
use crate::report::{Halt, Report};
use crate::status::Status;
use ksi_lines::Word::{Number, Text};
use ksi_lines::print;
use ksi_nodestore::Inspected;
use ksi_ports::Files;
use std::alloc::Global;

/// Loads the node file, and tells whose it is and what it has.
pub(crate) fn inspect<F: Files>(alloc: Global, files: &mut F, node: &str) -> Result<Report, Halt>
    ensures { Performed F.Files (inspect_command node.now) files.old files.new result }
{
    let said = load::<Inspected, F>(alloc, files, 1, node)?;
    Ok(told(&said))
}

fn told(said: &Inspected) -> Report
    ensures { result ≡ said_of said.now }
{
    let counts = said.counts;
    let line = print(
        Text("core"),
        &[
            Number(said.core as u64),
            Text("records"),
            Number(counts.records),
        ],
        &[
            Text("sealed"),
            Number(counts.sealed),
            Text("held"),
            Number(counts.held),
        ],
    );
    Report::new(Status::Done, line)
}
