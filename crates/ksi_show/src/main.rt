//! Shows in words and dates what files of this project hold: `ksi_show FILE ..`. `ksi_show picture FILE` draws a signature as
//! SVG. It judges nothing: `ksi verify` does.
//!
//! The text of a signature is exactly that of its definition, by the contract of `put_file`. All other texts, but those of
//! publications files, and the picture are tested alone.
#![tactic(auto)]

mod copies;
mod drawing;
mod found;
mod gaps;
mod journal;
mod kinds;
mod nodes;
mod picture;
mod spans;

use crate::found::Found;
use crate::kinds::{put_file, put_picture};
use ksi_imprint::NoMemory;
use ksi_ports::{Files, HostFiles, HostSink, LoadRefusal, Sink};
use ksi_texts::Word::{self, Number, Quoted, Text};
use ksi_texts::put;
use std::io::ErrorKind;
use std::process::ExitCode;
use std::{env, io};

/// How many bytes a file may have.
const MOST: usize = 67_108_864;

fn main(rt: HostRuntime) -> ExitCode {
    let status = match words(&rt) {
        Ok(words) => run(&rt, &words),
        Err(NoMemory) => 5,
    };
    ExitCode::from(status)
}

/// The words after the program's name: none where the system's words are not all UTF-8.
fn words(rt: &HostRuntime) -> Result<Vec<String>, NoMemory> {
    let mut words = Vec::new(rt.alloc());
    match env::args(rt) {
        Ok(args) => {
            for word in args.skip(1) {
                words.push(word)?;
            }
        }
        Err(error) if error.kind() == ErrorKind::OutOfMemory => return Err(NoMemory),
        Err(_) => {}
    }
    Ok(words)
}

fn run(rt: &HostRuntime, words: &[String]) -> u8 {
    if words.is_empty() || words.iter().any(|word| word.as_str().starts_with('-')) {
        return say(
            rt,
            &[Text("words refused: ksi-show FILE .. or ksi-show picture SIGNATURE")],
            2,
        );
    }
    match words {
        [picture, file] if picture.as_str() == "picture" => show(rt, 2, file.as_str(), true, false),
        [file] => show(rt, 1, file.as_str(), false, false),
        files => show_all(rt, files),
    }
}

/// Shows each file, and the greatest status of all.
fn show_all(rt: &HostRuntime, files: &[String]) -> u8 {
    let mut status = 0;
    for (n, file) in files.iter().enumerate() {
        status = show(rt, n.saturating_add(1), file.as_str(), false, true).max(status);
    }
    status
}

/// Shows file word `n`.
fn show(rt: &HostRuntime, n: usize, name: &str, is_picture: bool, is_named: bool) -> u8 {
    let mut files = HostFiles::new(rt);
    match files.load(rt.alloc(), name, MOST) {
        Ok(bytes) => {
            let mut text = Vec::new(rt.alloc());
            if is_named && put(&mut text, &[Quoted(name.as_bytes())]).is_err() {
                return 5;
            }
            let found = if is_picture {
                put_picture(&mut text, n, bytes.as_slice())
            } else {
                put_file(rt.alloc(), &mut text, n, bytes.as_slice())
            };
            match found {
                Ok(found) => write(rt, text.as_slice(), status_of(found)),
                Err(NoMemory) => 5,
            }
        }
        Err(LoadRefusal::Failed) => 4,
        Err(LoadRefusal::TooLong) => say(rt, &[Text("too long"), Number(n as u64)], 7),
        Err(LoadRefusal::NoMemory) => 5,
    }
}

fn status_of(found: Found) -> u8 {
    match found {
        Found::Ours => 0,
        Found::Foreign => 1,
        Found::Malformed => 3,
    }
}

/// Writes a row, and gives the status where it is written.
fn say(rt: &HostRuntime, words: &[Word<'_>], status: u8) -> u8 {
    let mut text = Vec::new(rt.alloc());
    match put(&mut text, words) {
        Ok(()) => write(rt, text.as_slice(), status),
        Err(NoMemory) => 5,
    }
}

/// Writes a text, and gives the status where it is written.
fn write(rt: &HostRuntime, text: &[u8], status: u8) -> u8 {
    let mut out = HostSink::new(io::writer(rt));
    match out.put(text) {
        Ok(()) => status,
        Err(_) => 4,
    }
}
