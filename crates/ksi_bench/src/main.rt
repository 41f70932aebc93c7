//! Times the work of one kernel: `ksi_bench KERNEL COUNT [FILE ..]` prints `KERNEL COUNT NANOSECONDS` and exits with one
//! byte of the result. bench/README.md lists the kernels. With other words it prints nothing and exits with 2.
#![tactic(auto)]

mod calendars;
mod clock;
mod files;
mod fronts;
mod joins;
mod line;
mod trees;

use crate::clock::Timed;
use std::env;
use std::process::ExitCode;

fn main(rt: HostRuntime) -> ExitCode {
    match words(&rt) {
        Some(words) => ExitCode::from(run(&rt, &words).unwrap_or(2)),
        None => ExitCode::from(2),
    }
}

/// The words after the program's name.
fn words(rt: &HostRuntime) -> Option<Vec<String>> {
    let mut words = Vec::new(rt.alloc());
    for word in env::args(rt).ok()?.skip(1) {
        words.push(word).ok()?;
    }
    Some(words)
}

fn run(rt: &HostRuntime, words: &[String]) -> Option<u8> {
    let (kernel, rest) = words.split_first()?;
    let (count, names) = rest.split_first()?;
    let timed = timed(rt, kernel.as_str(), line::number(count.as_bytes())?, names)?;
    line::put(rt, kernel, count, timed.nanoseconds);
    Some(timed.byte)
}

/// The work of a kernel, timed.
fn timed(rt: &HostRuntime, kernel: &str, count: u64, names: &[String]) -> Option<Timed> {
    match kernel {
        "join" => joins::join(rt, count),
        "tree_root" => trees::root(rt, count),
        "tree_paths" => trees::paths(rt, count),
        "cal_append" => calendars::append(rt, count),
        "cal_root" => calendars::root(rt, count),
        "cal_chain" => calendars::chain(rt, count),
        "cal_front" => fronts::proved(rt, count),
        "cal_check" => fronts::checked(rt, count),
        "verify" => files::verify(rt, count, names),
        "journal" => files::journal(rt, count, names),
        "pubs" => files::publications(rt, count, names),
        "logblock" => files::block(rt, count, names),
        _ => None,
    }
}
