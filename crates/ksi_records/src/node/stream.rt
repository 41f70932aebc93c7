//! A log, compared with the node's own run.
ghost use Rattle.std.specs.Prelude.{◌≡◌, IfOk, IfSome, List};
ghost use Rattle.ksi_schedule.specs.Printed.{actor_word};
ghost use Rattle.ksi_records.specs.Node.Entries.{Entry};
ghost use Rattle.ksi_records.specs.Node.Runs.{first_state};
ghost use Rattle.ksi_records.specs.Node.Steps.{IsAt, IsThere};
ghost use Rattle.ksi_records.specs.Node.Verdicts.{DoesAgree, HasVerdict, IsLog};

use crate::blocks::{Place, put_node};
use crate::node::entry::{Next, next_entry};
use crate::node::fault::LogFault;
use crate::node::runs::{Held, Node};
use crate::node::verdict::Verdict;
use ksi_imprint::Compress;
use ksi_schedule::{Actor, Plan};
use ksi_wire::WireFault;
use std::alloc::Global;
use std::io::{self, BufRead};

/// Compares the log of a node of the plan with the node's own run: the verdict is on what follows the entries that agree,
/// and there is no other. If it agrees, the values of the log's text are a log of the node that agrees with the node's rows
/// alone. It takes the memory of the node and of one entry.
///
/// # Errors
/// The reader's. `OutOfMemory`.
pub fn retrace<C: Compress, S: BufRead>(
    alloc: Global,
    plan: &Plan,
    me: Actor,
    log: &mut S,
) -> io::Result<Verdict>
    requires { IsThere plan.now me }
    ensures verdict { IfOk result (λ verdict. IfSome (S.remaining log.old) (λ text. (entries : List Entry) × HasVerdict C.image plan.now me entries text verdict)) }
    ensures only { IfOk result (λ verdict. IfSome (S.remaining log.old) (λ text.
        (entries : List Entry) (other : Verdict) → HasVerdict C.image plan.now me entries text other → other ≡ verdict)) }
    ensures log { IfOk result (λ verdict. IfSome (S.remaining log.old) (λ text. DoesAgree verdict → IsLog C.image plan.now me text)) }
{
    verdict_on::<C, S>(alloc, plan, me, log)
}

/// The verdict, with what it takes.
fn verdict_on<C: Compress, S: BufRead>(
    alloc: Global,
    plan: &Plan,
    me: Actor,
    log: &mut S,
) -> io::Result<Verdict>
    requires { IsThere plan.now me }
    ensures { IfOk result (λ verdict. IfSome (S.remaining log.old) (λ text. (entries : List Entry) × HasVerdict C.image plan.now me entries text verdict)) }
{
    let mut node = Node::<C>::new(alloc, plan, me);
    let mut word = Vec::new(alloc);
    put_node(&mut word, me)?;
    let mut line = Vec::new(alloc);
    let mut block = Vec::new(alloc);
    entry_by_entry(
        alloc, plan, me, &word, &mut node, log, &mut line, &mut block,
    )
}

/// The verdict, by a node before anything came, whose word is `word`. `line` and `block` are room for an entry.
fn entry_by_entry<C: Compress, S: BufRead>(
    alloc: Global,
    plan: &Plan,
    me: Actor,
    word: &[u8],
    node: &mut Node<C>,
    log: &mut S,
    line: &mut Vec<u8>,
    block: &mut Vec<u8>,
) -> io::Result<Verdict>
    requires there { IsThere plan.now me }
    requires word { word.now ≡ actor_word me }
    requires first { IsAt plan.now me node.old (first_state plan.now me) }
    ensures { IfOk result (λ verdict. IfSome (S.remaining log.old) (λ text. (entries : List Entry) × HasVerdict C.image plan.now me entries text verdict)) }
{
    let mut place = Place { entry: 0, line: 1 };
    'entries: for _ in 0..u64::MAX {
        let next = next_entry(alloc, plan, me, word, log, line, block)?;
        let head = match next {
            Next::Entry(head) => head,
            Next::Refused(fault) => return Ok(Verdict::Refused(fault, place)),
            Next::End => return Ok(Verdict::Agrees(place.entry)),
        };
        let held = node.hold(alloc, plan, me, head, block)?;
        match held {
            Held::Told => {}
            Held::Differs => return Ok(Verdict::Differs(place)),
            Held::Taken => {
                return Ok(Verdict::Refused(LogFault::Line(WireFault::Taken), place));
            }
        }
        place = place.behind(block);
    }
    Err(io::ErrorKind::Other.into())
}
