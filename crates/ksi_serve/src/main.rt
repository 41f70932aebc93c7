//! `ksi_serve PLAN NODE FOLDER NAME`: the node that NODE names, as `c0` or `a1`, of the plan at the start of the schedule
//! file PLAN. Its facts are in the file NAME of FOLDER, which is made if it is missing. It reads lines from standard input
//! and writes a block for each to standard output. The status is 0 at the end of the input, and 1 at a fault, which the
//! last line names: `failed WORD`.
//!
//! `ksi_serve --forget PLAN NODE FOLDER NAME BEFORE FRESH`: writes the compacted file of a node to FRESH of FOLDER, which
//! is empty or missing. NAME is the node's file. A core forgets each second before BEFORE, up to the first for which it
//! holds no root. An aggregator forgets each round of a second before BEFORE that has a response. The node must not run
//! meanwhile; afterwards FRESH is renamed to NAME. The last line is `left N of M`, the numbers of records of FRESH and of
//! NAME, and the status 0. At a fault it is `failed WORD`, and the status 1.
#![tactic(auto)]

mod core_node;
mod forgetting;
mod node;
mod round_node;

use forgetting::{Names, forget_aggregator, forget_core};
use ksi_node::{Failure, end, plan_of};
use ksi_ports::{HostFiles, HostSink};
use ksi_schedule::read_number;
use node::{Node, node_of};
use std::env;
use std::process::ExitCode;

fn main(rt: HostRuntime) -> ExitCode {
    let outcome = run(&rt);
    let mut out = HostSink::new(rt.stdout());
    end(&mut out, outcome)
}

fn run(rt: &HostRuntime) -> Result<(), Failure> {
    let words = words(rt)?;
    match words.as_slice() {
        [_, plan, node, folder, name] => serve(rt, plan, node, folder, name),
        [_, option, plan, node, files @ ..] if option.as_str() == "--forget" => {
            forget(rt, plan, node, files)
        }
        _ => Err(Failure::Words),
    }
}

/// The words of the command, the program's name in front.
fn words(rt: &HostRuntime) -> Result<Vec<String>, Failure> {
    let args = match env::args(rt) {
        Ok(args) => args,
        Err(error) => return Err(Failure::of(&error, Failure::Words)),
    };
    match args.collect(rt.alloc()) {
        Ok(words) => Ok(words),
        Err(_) => Err(Failure::Memory),
    }
}

fn serve(
    rt: &HostRuntime,
    plan: &String,
    node: &String,
    folder: &String,
    name: &String,
) -> Result<(), Failure> {
    let plan = plan_of(rt.alloc(), &mut HostFiles::new(rt), plan.as_str())?;
    match node_of(node.as_str().as_bytes()) {
        Some(Node::Core(number)) => {
            core_node::serve_number(rt, &plan, number, folder.as_str(), name.as_str())
        }
        Some(Node::Aggregator(number)) => {
            round_node::serve_number(rt, &plan, number, folder.as_str(), name.as_str())
        }
        None => Err(Failure::Node),
    }
}

/// Lets a node forget, by the words after the node: the folder, the name, the first second that is kept, and the new name.
fn forget(rt: &HostRuntime, plan: &String, node: &String, files: &[String]) -> Result<(), Failure> {
    let [folder, name, before, fresh] = files else {
        return Err(Failure::Words);
    };
    let Some(before) = read_number(before.as_str().as_bytes()) else {
        return Err(Failure::Words);
    };
    let plan = plan_of(rt.alloc(), &mut HostFiles::new(rt), plan.as_str())?;
    let names = Names {
        folder: folder.as_str(),
        name: name.as_str(),
        fresh: fresh.as_str(),
    };
    match node_of(node.as_str().as_bytes()) {
        Some(Node::Core(number)) => forget_core(rt, &plan, number, before, &names),
        Some(Node::Aggregator(number)) => forget_aggregator(rt, &plan, number, before, &names),
        None => Err(Failure::Node),
    }
}
