ghost use Rattle.std.specs.Prelude.{◌≤◌, ◌^◌};

use ksi_disk::MemDisk;
use ksi_imprint::Sha;
use ksi_nodestore::{Counts, NodeStore, OpenRefusal};
use ksi_synod::CorePlan;
use std::alloc::Global;
use std::test::Fail;

const START: u64 = 1_700_000_000;

// The file of the one core of a plan: one item sealed, a ballot tried and promised, a vote cast, and its root held.
static FILE: [u8; 222] = [
    75, 83, 73, 78, 79, 68, 69, 49, 0, 1, 0, 0, 0, 0, 101, 83, 241, 0, 1, 0, 0, 0, 52, 1, 0, 0, 0,
    0, 101, 83, 241, 0, 0, 0, 0, 1, 0, 0, 0, 0, 1, 7, 7, 7, 7, 7, 7, 7, 7, 7, 7, 7, 7, 7, 7, 7, 7,
    7, 7, 7, 7, 7, 7, 7, 7, 7, 7, 7, 7, 7, 7, 7, 7, 0, 0, 1, 0, 0, 0, 17, 2, 0, 0, 0, 0, 101, 83,
    241, 0, 0, 0, 0, 0, 0, 0, 0, 16, 1, 0, 0, 0, 17, 3, 0, 0, 0, 0, 101, 83, 241, 0, 0, 0, 0, 0, 0,
    0, 0, 16, 1, 0, 0, 0, 50, 4, 0, 0, 0, 0, 101, 83, 241, 0, 0, 0, 0, 0, 0, 0, 0, 16, 1, 7, 7, 7,
    7, 7, 7, 7, 7, 7, 7, 7, 7, 7, 7, 7, 7, 7, 7, 7, 7, 7, 7, 7, 7, 7, 7, 7, 7, 7, 7, 7, 7, 1, 0, 0,
    0, 42, 5, 0, 0, 0, 0, 101, 83, 241, 0, 1, 7, 7, 7, 7, 7, 7, 7, 7, 7, 7, 7, 7, 7, 7, 7, 7, 7, 7,
    7, 7, 7, 7, 7, 7, 7, 7, 7, 7, 7, 7, 7, 7, 0,
];

// What the opening of a file tells of it.
pub(crate) fn opened(
    alloc: Global,
    file: &[u8],
    start: u64,
) -> Result<Result<Counts, OpenRefusal>, Fail>
    requires { start ≤ 2 ^ 62 }
{
    let disk = MemDisk::new(alloc, file, 0, 1, Vec::new(alloc))?;
    let plan = CorePlan::new(1, start);
    Ok(
        match NodeStore::<Sha, MemDisk>::open(alloc, 0, &plan, disk) {
            Ok(store) => Ok(store.counts()),
            Err((refusal, _disk)) => Err(refusal),
        },
    )
}

fn counts(records: u64, sealed: u64, held: u64) -> Result<Counts, OpenRefusal> {
    Ok(Counts {
        records,
        sealed,
        held,
    })
}

#[test]
fn a_file_is_opened(rt: HostRuntime) -> Result<(), Fail> {
    let alloc = rt.alloc();
    assert!(rt; opened(alloc, &FILE, START)? == counts(5, 1, 1));
    // the gate of the last record, which stands at 174
    for gate in [0, 7] {
        let mut file = FILE;
        file[174] = gate;
        assert!(rt; opened(alloc, &file, START)? == counts(4, 1, 0));
    }
    Ok(())
}

#[test]
fn a_file_is_refused(rt: HostRuntime) -> Result<(), Fail> {
    let alloc = rt.alloc();
    let (cut, _) = FILE.split_at(221);
    assert!(rt; opened(alloc, cut, START)? == Err(OpenRefusal::Malformed(221)));
    let (front, _) = FILE.split_at(17);
    assert!(rt; opened(alloc, front, START)? == Err(OpenRefusal::NotFormatted));
    assert!(rt; opened(alloc, &FILE, START + 1)? == Err(OpenRefusal::Foreign(0, 1, START)));
    // the vote is cast in another ballot than the one that is promised
    let mut file = FILE;
    file[140] = 32;
    assert!(rt; opened(alloc, &file, START)? == Err(OpenRefusal::Malformed(119)));
    // the ballot that is tried, and the one that is promised, is of a core that the plan has not: 14, 8 and 1
    for (at, gate) in [(96, 75), (118, 97)] {
        for ballot in [222, 104, 17] {
            let mut file = FILE;
            file[at] = ballot;
            assert!(rt; opened(alloc, &file, START)? == Err(OpenRefusal::Malformed(gate)));
        }
    }
    Ok(())
}
