//! The program: one command over the files and the output of the system.
//!
//! `ksi COMMAND WORD ..` runs one of twenty commands, prints at most one line and exits with the run's status: `replay`,
//! `sign`, `publish`, `extend`, `verify`, `audit`, `make`, `drill`, `migrate`, `front`, `compare`, `node`, `inspect`,
//! `block`, `line`, `checkline`, `locate`, `mirror`, `merge` and `whole`. docs/FORMATS.md lists their words and lines.
#![tactic(auto)]

use ksi_ports::{HostFiles, HostSink};
use ksi_top::{Status, ksi};
use std::alloc::AllocError;
use std::io::ErrorKind;
use std::process::ExitCode;
use std::{env, io};

fn main(rt: HostRuntime) -> ExitCode {
    let status = match words(&rt) {
        Ok(words) => run(&rt, &words),
        Err(AllocError) => Status::NoMemory,
    };
    ExitCode::from(status.code())
}

fn run(rt: &HostRuntime, words: &[String]) -> Status {
    let mut files = HostFiles::new(rt);
    let mut out = HostSink::new(io::writer(rt));
    ksi(rt.alloc(), words, &mut files, &mut out)
}

/// The words after the program's name: none where the system's words are not all UTF-8.
fn words(rt: &HostRuntime) -> Result<Vec<String>, AllocError> {
    let mut words = Vec::new(rt.alloc());
    match env::args(rt) {
        Ok(args) => {
            for word in args.skip(1) {
                words.push(word)?;
            }
        }
        Err(error) if error.kind() == ErrorKind::OutOfMemory => return Err(AllocError),
        Err(_) => {}
    }
    Ok(words)
}
