// The command `root`.
use crate::report::{Halt, Report};
use ksi_calendar_folder::root;
use ksi_imprint::Sha;
use ksi_lines::Word::{Digest, Number, Text};
use ksi_lines::print;
use ksi_ports::Files;
use std::alloc::Global;

/// Prints the root of the calendar to `p`.
pub(crate) fn report<F: Files>(
    alloc: Global,
    files: &mut F,
    folder: &str,
    p: u64,
) -> Result<Report, Halt> {
    let root = root::<Sha, F>(alloc, files, folder, p)?;
    Ok(Report::done(print(Text("root"), &[], &[Number(p), Digest(&root)])))
}
