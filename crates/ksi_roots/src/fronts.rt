// The command `front`.
ghost use Rattle.std.specs.Prelude.{◌<◌, ◌^◌};

use crate::report::{Halt, Report};
use ksi_calendar_folder::front;
use ksi_consistency::write_front;
use ksi_imprint::Sha;
use ksi_lines::Word::{Number, Text};
use ksi_lines::print;
use ksi_ports::Files;
use std::alloc::Global;

/// Saves the front of the calendar to `p1` in that to `p2`.
pub(crate) fn report<F: Files>(
    alloc: Global,
    files: &mut F,
    folder: &str,
    p1: u64,
    p2: u64,
    out: &str,
) -> Result<Report, Halt>
    requires { p2 < 2 ^ 63 }
{
    if p2 < p1 {
        let values = [Number(p1), Number(p2)];
        return Ok(Report::refused(print(Text("refused"), &[Text("F4")], &values)));
    }
    let found = front::<Sha, F>(alloc, files, folder, p1, p2)?;
    let text = write_front(alloc, &found)?;
    files.save(alloc, out, text.as_slice())?;
    let imprints = found.list().len() as u64;
    Ok(Report::done(print(
        Text("front"),
        &[],
        &[Number(p1), Number(p2), Number(imprints)],
    )))
}
