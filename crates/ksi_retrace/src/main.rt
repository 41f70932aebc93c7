//! `ksi_retrace PLAN [RECORD]` compares the record of a live run with the world of its plan, and
//! `ksi_retrace --node NODE PLAN` the log of one node, as `c0` or `a1`, with that node's own run.
//!
//! PLAN is a schedule file without events. The record comes from the file RECORD, or from standard input, entry by entry
//! (docs/FORMATS.md, "Records of runs"). For each step whose reply was lost the program prints the place and the world's block.
//! The log comes from standard input ("Logs of nodes"). The last line is `agrees` with counts, `differs` with the first entry
//! whose block is not the world's or the node's at its place, `refused` with what is no entry, or `failed`.
#![tactic(auto)]

mod failure;
mod log;

use failure::{Failure, fail};
use ksi_imprint::{Refused, Sha};
use ksi_records::report;
use ksi_schedule::{Plan, Schedule, read_schedule};
use std::fs::File;
use std::io::{self, BufRead, BufReader};
use std::process::ExitCode;
use std::{env, fs};

fn main(rt: HostRuntime) -> ExitCode {
    match run(&rt) {
        Ok(code) => ExitCode::from(code),
        Err(_) => ExitCode::from(4),
    }
}

fn run(rt: &HostRuntime) -> io::Result<u8> {
    let words: Vec<String> = env::args(rt)?.collect(rt.alloc())?;
    match words.as_slice() {
        [_, plan] => {
            let mut record = BufReader::new(rt.alloc(), rt.reader())?;
            hold(rt, plan.as_str(), &mut record)
        }
        [_, plan, record] => match File::open(rt, record.as_str()) {
            Ok(file) => {
                let mut record = BufReader::new(rt.alloc(), file)?;
                hold(rt, plan.as_str(), &mut record)
            }
            Err(_) => fail(rt, Failure::Stream),
        },
        [_, option, node, plan] if option.as_str() == "--node" => {
            hold_node(rt, plan.as_str(), node.as_str())
        }
        _ => fail(rt, Failure::Words),
    }
}

/// Compares a record with the world of the plan in a file.
fn hold<S: BufRead>(rt: &HostRuntime, plan: &str, record: &mut S) -> io::Result<u8> {
    match plan_in(rt, plan) {
        Ok(schedule) => hold_record(rt, schedule.plan(), record),
        Err(failure) => fail(rt, failure),
    }
}

fn hold_record<S: BufRead>(rt: &HostRuntime, plan: &Plan, record: &mut S) -> io::Result<u8> {
    let mut out = io::writer(rt);
    match report::<Sha, S, _>(rt.alloc(), plan, record, &mut out) {
        Ok(status) => Ok(status),
        Err(error) => fail(rt, Failure::of(&error)),
    }
}

/// Compares the log of a node with its run by the plan in a file.
fn hold_node(rt: &HostRuntime, plan: &str, node: &str) -> io::Result<u8> {
    match plan_in(rt, plan) {
        Ok(schedule) => log::hold(rt, schedule.plan(), node.as_bytes()),
        Err(failure) => fail(rt, failure),
    }
}

/// The schedule in a file, if it has no events.
fn plan_in(rt: &HostRuntime, path: &str) -> Result<Schedule, Failure> {
    let Ok(text) = fs::read(rt, path) else {
        return Err(Failure::Plan);
    };
    let schedule = match read_schedule(rt.alloc(), &text) {
        Ok(schedule) => schedule,
        Err(Refused::Fault(_)) => return Err(Failure::Plan),
        Err(Refused::NoMemory) => return Err(Failure::Memory),
    };
    if schedule.events().is_empty() {
        Ok(schedule)
    } else {
        Err(Failure::Plan)
    }
}
