// The command `extend-all`.
ghost use Rattle.std.specs.Prelude.{◌<◌, ◌^◌, IsTrue};
ghost use Rattle.ksi_calendar.specs.Calendar.{is_covered};

use crate::loading::load;
use crate::names::{moved, name_of};
use crate::report::{Halt, Report, bad_name};
use crate::saving::save_extended;
use itoa::Buffer;
use ksi_calendar::Calendar;
use ksi_calendar_folder::gather;
use ksi_imprint::{NoMemory, Sha};
use ksi_lines::Word::{Number, Text};
use ksi_lines::{Line, print};
use ksi_ports::{Files, HostSink, Sink};
use std::alloc::Global;
use std::io::Write;

/// The most bytes that a list may have.
const LIST_LIMIT: usize = 67_108_864;

/// Saves each signature that a list names extended to `p`, and prints a line for each.
pub(crate) fn report<F: Files, W: Write>(
    alloc: Global,
    files: &mut F,
    out: &mut HostSink<W>,
    folder: &str,
    list: &str,
    p: u64,
    extended: &str,
) -> Result<Report, Halt>
    requires { p < 2 ^ 63 }
{
    let calendar = gather::<Sha, F>(alloc, files, folder, p)?;
    let list = load(alloc, files, 2, list, LIST_LIMIT)?;
    let mut names = 0u64;
    let mut done = 0u64;
    'names: for line in list.as_slice().split_inclusive(|byte| *byte == b'\n') {
        names = names.saturating_add(1);
        let outcome = save_line(alloc, files, &calendar, line, p, extended);
        if is_extended(alloc, out, names, outcome)? {
            done = done.saturating_add(1);
        }
    }
    Ok(summary(done, names))
}

/// Saves the signature that a line of the list names, in a folder.
fn save_line<F: Files>(
    alloc: Global,
    files: &mut F,
    calendar: &Calendar<Sha>,
    line: &[u8],
    p: u64,
    folder: &str,
) -> Result<Line, Halt>
    requires early { p < 2 ^ 63 }
    requires covered { IsTrue (is_covered calendar.now p) }
{
    match name_of(line) {
        Some(name) => {
            let out = moved(alloc, folder, name)?;
            save_extended(alloc, files, calendar, name, p, out.as_str())
        }
        None => Err(Halt::Reported(bad_name())),
    }
}

/// Prints the outcome of name `number`, and returns whether the signature is extended. Faults end the run.
fn is_extended<W: Write>(
    alloc: Global,
    out: &mut HostSink<W>,
    number: u64,
    outcome: Result<Line, Halt>,
) -> Result<bool, Halt> {
    match outcome {
        Ok(line) => {
            put_numbered(alloc, out, number, &line)?;
            Ok(true)
        }
        Err(Halt::Reported(report)) => {
            put_numbered(alloc, out, number, &report.line)?;
            Ok(false)
        }
        Err(halt) => Err(halt),
    }
}

/// Prints a line after a number.
fn put_numbered<W: Write>(
    alloc: Global,
    out: &mut HostSink<W>,
    number: u64,
    line: &Line,
) -> Result<(), Halt> {
    let text = numbered(alloc, number, line)?;
    match out.put(text.as_slice()) {
        Ok(()) => Ok(()),
        Err(_) => Err(Halt::Fault),
    }
}

fn numbered(alloc: Global, number: u64, line: &Line) -> Result<Vec<u8>, NoMemory> {
    let mut digits = Buffer::new();
    let mut text = Vec::new(alloc);
    text.extend_from_slice(digits.format(number).as_bytes())?;
    text.push(b' ')?;
    text.extend_from_slice(line.as_bytes())?;
    Ok(text)
}

/// The last line.
fn summary(done: u64, names: u64) -> Report {
    let line = print(
        Text("extended"),
        &[],
        &[Number(done), Text("of"), Number(names)],
    );
    if done == names {
        Report::done(line)
    } else {
        Report::refused(line)
    }
}
