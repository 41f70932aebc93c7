// A node file is opened by its own header.
ghost use Rattle.std.specs.Prelude.{◌≡◌, ℕ, List, take, Ok, Err};
ghost use Rattle.ksi_nodestore.specs.Headers.{header_at, IsGood};
ghost use Rattle.ksi_nodestore.specs.Inspecting.{inspected, refused_for, Inspects, IsBroken, IsNodeFault};

use crate::heads::HEADER;
use crate::inspected::{Inspected, NodeFault};
use crate::{Header, HeaderFault, NodeStore, OpenRefusal, header};
use ksi_corenode::laws::one_core_of_facts;
use ksi_disk::MemDisk;
use ksi_imprint::{Compress, Refused};
use ksi_synod::CorePlan;
use std::alloc::Global;

/// What a node file says. It is opened as that of the core that its header names, of a plan without voters, on a disk in
/// memory that has turns enough.
///
/// # Errors
///
/// `Fault`: what is wrong with the file. `NoMemory`.
pub fn inspect<C: Compress>(alloc: Global, bytes: &[u8]) -> Result<Inspected, Refused<NodeFault>>
    ensures { Inspects bytes.now result }
{
    match header(front(bytes)) {
        Ok(head) => inspect_behind::<C>(alloc, bytes, &head),
        Err(fault) => Err(Refused::Fault(fault_of(fault))),
    }
}

/// The same of a file with this header.
fn inspect_behind<C: Compress>(
    alloc: Global,
    bytes: &[u8],
    head: &Header,
) -> Result<Inspected, Refused<NodeFault>>
    requires head { header_at (take 18 bytes.now) ≡ Ok head.now }
    requires good { IsGood head.now }
    ensures { Inspects bytes.now result }
{
    one_core_of_facts();
    let plan = CorePlan::new(head.cores, head.start);
    let disk = MemDisk::new(alloc, bytes, 0, 1, Vec::new(alloc))?;
    match NodeStore::<C, MemDisk>::open(alloc, head.core, &plan, disk) {
        Ok(store) => Ok(Inspected {
            core: head.core,
            counts: store.counts(),
        }),
        Err((refusal, _)) => Err(refused(refusal)),
    }
}

/// The first bytes, as many as a header has, or all where there are fewer.
fn front(bytes: &[u8]) -> &[u8]
    ensures { result.now ≡ take 18 bytes.now }
{
    if bytes.len() < HEADER {
        bytes
    } else {
        bytes.split_at(HEADER).0
    }
}

/// Why there is no header.
fn fault_of(fault: HeaderFault) -> NodeFault
    ensures { (file : List ℕ) → header_at (take 18 file) ≡ Err fault → (inspected file ≡ Err result) × IsNodeFault file result }
{
    match fault {
        HeaderFault::NotFormatted => NodeFault::NotFormatted,
        HeaderFault::Bad(core, cores, start) => NodeFault::Bad(core, cores, start),
    }
}

/// Why a file with its own header is not opened, on a disk that does not fail.
fn refused(refusal: OpenRefusal) -> Refused<NodeFault>
    requires { IsBroken refusal }
    ensures { refusal ≡ refused_for result }
{
    match refusal {
        OpenRefusal::Malformed(place) => Refused::Fault(NodeFault::Malformed(place)),
        OpenRefusal::NoMemory => Refused::NoMemory,
        _ => unreachable!(),
    }
}
