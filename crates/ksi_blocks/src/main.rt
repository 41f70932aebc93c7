//! `ksi_blocks COMMAND LOG SEEDFILE WORD ..`: masked blocks of log lines, with the seed of the masks in a file.
//!
//! The commands are `block LOG SEEDFILE`, `line LOG SEEDFILE K OUT` and `locate LOG SEEDFILE LINE PROOF`. Each prints what the command
//! of `ksi` prints that has the seed as a word, so that no seed is in the list of processes (docs/FORMATS.md, "Blocks with a seed
//! file"). What is printed and saved of the files is exactly as the definitions of `Commands` say: the block is that of the log's lines
//! under the seed of the file, as `ksi_logblock` defines it.
#![tactic(auto)]

mod block;
mod line;
mod loading;
mod locate;
mod log;
mod report;
mod saving;
mod seed;
mod source;

use crate::report::{Halt, Report, bad_word, no_words};
use ksi_ports::{HostFiles, HostSink, Sink};
use ksi_words::number;
use std::alloc::AllocError;
use std::env;
use std::io::ErrorKind;
use std::process::ExitCode;

fn main(rt: HostRuntime) -> ExitCode {
    let status = match words(&rt) {
        Ok(words) => run(&rt, &words),
        Err(AllocError) => 5,
    };
    ExitCode::from(status)
}

/// The words after the program's name: none if one is not UTF-8.
fn words(rt: &HostRuntime) -> Result<Vec<String>, AllocError> {
    let mut words = Vec::new(rt.alloc());
    match env::args(rt) {
        Ok(args) => {
            for word in args.skip(1) {
                words.push(word)?;
            }
        }
        Err(error) if error.kind() == ErrorKind::OutOfMemory => return Err(AllocError),
        Err(_) => {}
    }
    Ok(words)
}

/// Runs the command, prints its line and returns the exit status.
fn run(rt: &HostRuntime, words: &[String]) -> u8 {
    match perform(rt, words) {
        Ok(report) | Err(Halt::Reported(report)) => {
            let mut out = HostSink::new(rt.stdout());
            match out.put(report.line.as_bytes()) {
                Ok(()) => report.status,
                Err(_) => 4,
            }
        }
        Err(Halt::Fault) => 4,
        Err(Halt::NoMemory) => 5,
    }
}

fn perform(rt: &HostRuntime, words: &[String]) -> Result<Report, Halt> {
    let alloc = rt.alloc();
    let mut files = HostFiles::new(rt);
    match words {
        [name, log, seed] if name.as_str() == "block" => {
            block::report(alloc, &mut files, log.as_str(), seed.as_str())
        }
        [name, log, seed, k, out] if name.as_str() == "line" => {
            let k = number_at(3, k)?;
            line::report(
                alloc,
                &mut files,
                log.as_str(),
                seed.as_str(),
                k,
                out.as_str(),
            )
        }
        [name, log, seed, line, proof] if name.as_str() == "locate" => {
            locate::report(
                alloc,
                &mut files,
                log.as_str(),
                seed.as_str(),
                line.as_str(),
                proof.as_str(),
            )
        }
        _ => Err(Halt::Reported(no_words())),
    }
}

/// The number that word `n` after the command's name encodes.
fn number_at(n: u64, word: &String) -> Result<u64, Halt> {
    number(word.as_str()).ok_or(Halt::Reported(bad_word(n)))
}
