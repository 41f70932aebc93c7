//! The log of a node, on the standard input.
ghost use Rattle.ksi_records.specs.Node.Steps.{IsThere};

use crate::failure::{Failure, fail};
use ksi_imprint::Sha;
use ksi_records::node::report;
use ksi_records::node_of;
use ksi_schedule::{Actor, Plan};
use std::io::{self, BufReader};

/// Compares the log on standard input with the run of the node of a plan that a word names.
pub(crate) fn hold(rt: &HostRuntime, plan: &Plan, word: &[u8]) -> io::Result<u8> {
    match node_of(plan, word) {
        Ok(me) => hold_log(rt, plan, me),
        Err(_) => fail(rt, Failure::Node),
    }
}

fn hold_log(rt: &HostRuntime, plan: &Plan, me: Actor) -> io::Result<u8>
    requires { IsThere plan.now me }
{
    let mut log = BufReader::new(rt.alloc(), rt.stdin())?;
    let mut out = io::writer(rt);
    match report::<Sha, _, _>(rt.alloc(), plan, me, &mut log, &mut out) {
        Ok(status) => Ok(status),
        Err(error) => fail(rt, Failure::of(&error)),
    }
}
