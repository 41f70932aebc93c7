// The command `drill`.
ghost use Rattle.std.specs.Prelude.{◌≡◌, IfOk};
ghost use Rattle.ksi_replay.specs.Drill.{drilled};
ghost use Rattle.ksi_top.specs.Drill.{IsDrilled, tallied};

use crate::report::Report;
use crate::status::Status;
use ksi_imprint::NoMemory;
use ksi_lines::Word::{Number, Text};
use ksi_lines::print;
use ksi_replay::Tally;
use std::alloc::Global;

/// Makes the schedule of a number, runs it, and tells how the signatures that it issues fare.
pub(crate) fn drill(alloc: Global, number: u64) -> Result<Report, NoMemory>
    ensures told { IfOk result (λ report. report ≡ tallied (drilled number)) }
    ensures headline { IfOk result (IsDrilled number) }
{
    let tally = ksi_replay::drill(alloc, number)?;
    Ok(tallied(&tally))
}

fn tallied(tally: &Tally) -> Report
    ensures { result ≡ tallied tally.now }
{
    let line = print(
        Text("seconds"),
        &[
            Number(tally.seconds),
            Text("missed"),
            Number(tally.missed),
            Text("issued"),
            Number(tally.issued),
        ],
        &[
            Text("accepted"),
            Number(tally.accepted),
            Text("inside"),
            Number(tally.inside),
            Text("beneath"),
            Number(tally.beneath),
        ],
    );
    Report::new(Status::Done, line)
}
