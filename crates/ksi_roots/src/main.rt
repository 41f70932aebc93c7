//! `ksi_roots COMMAND FOLDER WORD ..`: roots, consistency proofs, extensions and audits over a folder of calendar files, without a
//! core.
//!
//! The commands are `root FOLDER P`, `front FOLDER P1 P2 OUT`, `extend FOLDER SIGNATURE P OUT`,
//! `extend-all FOLDER LIST P OUTFOLDER` and `audit FOLDER SIGNATURE HASH SECOND ITEMS`. Each prints at most one line, and
//! `extend-all` one more for each name of its list (docs/FORMATS.md, "Over calendar files"). What is computed is exactly as
//! `ksi_calendar_folder`, `ksi_calendar_extender` and `ksi_calendar_auditor` say, and what is saved of a signature is its
//! extension (`save_extended`). The printed lines are tested.
#![tactic(auto)]

ghost use Rattle.std.specs.Prelude.{◌<◌, ◌^◌, IfOk};

mod auditing;
mod extending;
mod extending_all;
mod fronts;
mod loading;
mod names;
mod report;
mod roots;
mod saving;

use crate::report::{Halt, Report, bad_word, no_words};
use ksi_imprint::Imprint;
use ksi_ports::{HostFiles, HostSink, Sink};
use ksi_words::{hash, time};
use std::alloc::AllocError;
use std::env;
use std::io::{ErrorKind, Write};
use std::process::ExitCode;

fn main(rt: HostRuntime) -> ExitCode {
    let status = match words(&rt) {
        Ok(words) => run(&rt, &words),
        Err(AllocError) => 5,
    };
    ExitCode::from(status)
}

/// The words after the program's name: none if one is not UTF-8.
fn words(rt: &HostRuntime) -> Result<Vec<String>, AllocError> {
    let mut words = Vec::new(rt.alloc());
    match env::args(rt) {
        Ok(args) => {
            for word in args.skip(1) {
                words.push(word)?;
            }
        }
        Err(error) if error.kind() == ErrorKind::OutOfMemory => return Err(AllocError),
        Err(_) => {}
    }
    Ok(words)
}

/// Runs the command, prints its line and returns the exit status.
fn run(rt: &HostRuntime, words: &[String]) -> u8 {
    let mut out = HostSink::new(rt.stdout());
    match perform(rt, &mut out, words) {
        Ok(report) | Err(Halt::Reported(report)) => {
            match out.put(report.line.as_bytes()) {
                Ok(()) => report.status,
                Err(_) => 4,
            }
        }
        Err(Halt::Fault) => 4,
        Err(Halt::NoMemory) => 5,
    }
}

/// Performs the command. Lines before the last one are printed to `out`.
fn perform<W: Write>(
    rt: &HostRuntime,
    out: &mut HostSink<W>,
    words: &[String],
) -> Result<Report, Halt> {
    let alloc = rt.alloc();
    let mut files = HostFiles::new(rt);
    match words {
        [name, folder, p] if name.as_str() == "root" => {
            let p = second(2, p)?;
            roots::report(alloc, &mut files, folder.as_str(), p)
        }
        [name, folder, p1, p2, front] if name.as_str() == "front" => {
            let p1 = second(2, p1)?;
            let p2 = second(3, p2)?;
            fronts::report(alloc, &mut files, folder.as_str(), p1, p2, front.as_str())
        }
        [name, folder, signature, p, extended] if name.as_str() == "extend" => {
            let p = second(3, p)?;
            extending::report(
                alloc,
                &mut files,
                folder.as_str(),
                signature.as_str(),
                p,
                extended.as_str(),
            )
        }
        [name, folder, list, p, extended] if name.as_str() == "extend-all" => {
            let p = second(3, p)?;
            extending_all::report(
                alloc,
                &mut files,
                out,
                folder.as_str(),
                list.as_str(),
                p,
                extended.as_str(),
            )
        }
        [name, folder, signature, digest, time, items] if name.as_str() == "audit" => {
            let hash = imprint(3, digest)?;
            let second = second(4, time)?;
            auditing::report(
                alloc,
                &mut files,
                folder.as_str(),
                signature.as_str(),
                &hash,
                second,
                items.as_str(),
            )
        }
        _ => Ok(no_words()),
    }
}

/// The imprint of the hash that word `n` after the command's name encodes.
fn imprint(n: u64, word: &String) -> Result<Imprint, Halt> {
    match hash(word.as_str()) {
        Some(imprint) => Ok(imprint),
        None => Err(Halt::Reported(bad_word(n))),
    }
}

/// The second that word `n` after the command's name encodes.
fn second(n: u64, word: &String) -> Result<u64, Halt>
    ensures { IfOk result (λ second. second < 2 ^ 63) }
{
    match time(word.as_str()) {
        Some(second) if second < 1 << 63 => Ok(second),
        _ => Err(Halt::Reported(bad_word(n))),
    }
}
