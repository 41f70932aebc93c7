//! `ksi_print text PUBLICATIONS SECOND` prints a publication as text for a newspaper, and `ksi_print read TEXT OUT` saves the
//! publications file of such a text (docs/FORMATS.md, "Printed publications").
//!
//! The text is exactly that of its definition (`text_of`), and the saved file is that of exactly the second and the root of
//! the text (`save_publication`). What is printed otherwise, and the status, are tested.
#![tactic(auto)]

ghost use Rattle.std.specs.Prelude.{◌<◌, ◌^◌, IfOk};

mod loading;
mod printing;
mod report;
mod saving;

use crate::printing::text_of;
use crate::report::{Halt, Report, bad_word, no_words, read_line};
use crate::saving::save_publication;
use ksi_imprint::Bytes;
use ksi_lines::Line;
use ksi_ports::{HostFiles, HostSink, Sink};
use ksi_words::time;
use std::alloc::AllocError;
use std::env;
use std::io::ErrorKind;
use std::process::ExitCode;

/// What a command prints.
#[derive(Drop)]
enum Output {
    Text(Bytes),
    Line(Line),
}

fn main(rt: HostRuntime) -> ExitCode {
    let status = match words(&rt) {
        Ok(words) => run(&rt, &words),
        Err(AllocError) => 5,
    };
    ExitCode::from(status)
}

/// The words after the program's name: none if one is not UTF-8.
fn words(rt: &HostRuntime) -> Result<Vec<String>, AllocError> {
    let mut words = Vec::new(rt.alloc());
    match env::args(rt) {
        Ok(args) => {
            for word in args.skip(1) {
                words.push(word)?;
            }
        }
        Err(error) if error.kind() == ErrorKind::OutOfMemory => return Err(AllocError),
        Err(_) => {}
    }
    Ok(words)
}

/// Runs the command, prints its output and returns the exit status.
fn run(rt: &HostRuntime, words: &[String]) -> u8 {
    match perform(rt, words) {
        Ok(Output::Text(text)) => put(rt, text.as_slice(), 0),
        Ok(Output::Line(line)) => put(rt, line.as_bytes(), 0),
        Err(Halt::Reported(report)) => put(rt, report.line.as_bytes(), report.status),
        Err(Halt::Fault) => 4,
        Err(Halt::NoMemory) => 5,
    }
}

/// Prints a text, and returns the status if it is printed.
fn put(rt: &HostRuntime, text: &[u8], status: u8) -> u8 {
    let mut out = HostSink::new(rt.stdout());
    match out.put(text) {
        Ok(()) => status,
        Err(_) => 4,
    }
}

fn perform(rt: &HostRuntime, words: &[String]) -> Result<Output, Halt> {
    let alloc = rt.alloc();
    let mut files = HostFiles::new(rt);
    match words {
        [name, publications, second] if name.as_str() == "text" => {
            let second = printable(second)?;
            let text = text_of(alloc, &mut files, publications.as_str(), second)?;
            Ok(Output::Text(text))
        }
        [name, text, out] if name.as_str() == "read" => {
            let (second, root) = save_publication(alloc, &mut files, text.as_str(), out.as_str())?;
            Ok(Output::Line(read_line(second, &root)))
        }
        _ => Err(Halt::Reported(no_words())),
    }
}

/// The second that the last word encodes. A text has twelve digits for it.
fn printable(word: &String) -> Result<u64, Halt>
    ensures { IfOk result (λ second. second < 10 ^ 12) }
{
    match time(word.as_str()) {
        Some(second) if second < 1_000_000_000_000 => Ok(second),
        _ => Err(Halt::Reported(bad_word(2))),
    }
}
