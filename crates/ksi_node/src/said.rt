// The blocks of one line.
ghost use Rattle.std.specs.Prelude.{◌≡◌, ℕ, IfOk, OnOk};
ghost use Rattle.std.specs.Io.KnownBytes.{Appends};
ghost use Rattle.ksi_node.specs.Failures.{FaultsCounted};
ghost use Rattle.ksi_node.specs.Serving.{block_text, ready_text};
ghost use Rattle.ksi_wire.specs.Refused.{refusal_text};

use crate::failure::Failure;
use crate::outlet::Outlet;
use ksi_imprint::NoMemory;
use ksi_wire::WireFault;
use std::alloc::Global;

/// Says that the node is ready, with this number of records.
pub(crate) fn say_ready<O: Outlet>(alloc: Global, records: u64, out: &mut O) -> Result<(), Failure>
    ensures said { OnOk result (Appends (O.said out.old) (O.said out.new) (ready_text records)) }
    ensures calm { (faults : ℕ) → FaultsCounted faults faults result }
{
    let text = ready_block(alloc, records)?;
    out.say_ready(records, &text)?;
    Ok(())
}

/// The refusal of a line.
pub(crate) fn refusal_block(alloc: Global, fault: WireFault) -> Result<Vec<u8>, NoMemory>
    ensures { IfOk result (λ text. text.items ≡ refusal_text fault) }
{
    block(alloc, b"refused ", fault.word())
}

/// The node is ready, with this number of records.
fn ready_block(alloc: Global, records: u64) -> Result<Vec<u8>, NoMemory>
    ensures { IfOk result (λ text. text.items ≡ ready_text records) }
{
    let mut digits = itoa::Buffer::new();
    block(alloc, b"ready ", digits.format(records).as_bytes())
}

/// A block of one line: its beginning, and its last word.
fn block(alloc: Global, front: &[u8], word: &[u8]) -> Result<Vec<u8>, NoMemory>
    ensures { IfOk result (λ text. text.items ≡ block_text front.now word.now) }
{
    let mut text = Vec::new(alloc);
    text.extend_from_slice(front)?;
    text.extend_from_slice(word)?;
    text.extend_from_slice(b"\n.\n")?;
    Ok(text)
}
