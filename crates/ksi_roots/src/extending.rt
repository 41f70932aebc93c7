// The command `extend`.
ghost use Rattle.std.specs.Prelude.{◌<◌, ◌^◌};

use crate::report::{Halt, Report};
use crate::saving::save_extended;
use ksi_calendar_folder::gather;
use ksi_imprint::Sha;
use ksi_ports::Files;
use std::alloc::Global;

/// Saves the signature extended to `p`.
pub(crate) fn report<F: Files>(
    alloc: Global,
    files: &mut F,
    folder: &str,
    signature: &str,
    p: u64,
    out: &str,
) -> Result<Report, Halt>
    requires { p < 2 ^ 63 }
{
    let calendar = gather::<Sha, F>(alloc, files, folder, p)?;
    let line = save_extended(alloc, files, &calendar, signature, p, out)?;
    Ok(Report::done(line))
}
