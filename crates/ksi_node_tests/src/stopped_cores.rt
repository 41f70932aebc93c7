//! The one core of a plan is stopped at each call of its disk, and its file is opened again, whatever a crash leaves.
ghost use Rattle.std.specs.Prelude.{◌≡◌, ◌≤◌, ◌^◌, ℕ};
ghost use Rattle.ksi_corenode.specs.CoreState.{CoreState};
ghost use Rattle.ksi_corenode.specs.Events.{event_second, IsAsked, MayTake};
ghost use Rattle.ksi_corenode.specs.Owners.{BringsOwned, NamesOwned};
ghost use Rattle.ksi_synod.specs.Rows.{OfBallot};

use crate::node_files::opened;
use ksi_aggtree::Item;
use ksi_corenode::CoreEvent;
use ksi_disk::{Disk, Fate, MemDisk};
use ksi_imprint::{Compress, Imprint, Sha};
use ksi_nodestore::{NodeStore, format};
use ksi_synod::{CorePlan, LastVote, SynodMessage};
use std::alloc::Global;
use std::marker::Model;
use std::test::Fail;

const START: u64 = 1_700_000_000;

/// The store of core 0, no call of whose disk has failed.
#[derive(Drop)]
struct Running<C: Compress, D: Disk> {
    store: NodeStore<C, D>,
}

impl<C: Compress, D: Disk> Model for Running<C, D> {
    ghost use Rattle.std.specs.Prelude.{◌≡◌};
    ghost use Rattle.ksi_corenode.specs.CoreState.{CoreState};

    ghost Value = { CoreState };

    ghost view = { λ running. running.store.core };

    ghost invariant = { λ running. (running.store.core.start ≡ 1700000000) × (running.store.core.plan.cores ≡ 1) };
}

impl<C: Compress, D: Disk> Running<C, D> {
    /// Opens the disk, or hands it back.
    fn open(alloc: Global, disk: D) -> Result<Self, D> {
        match NodeStore::open(alloc, 0, &CorePlan::new(1, START), disk) {
            Ok(store) => Ok(Running { store }),
            Err((_, disk)) => Err(disk),
        }
    }

    /// Takes an event, or gives up the disk that failed.
    fn take(self, event: &CoreEvent) -> Result<Self, D>
        requires may { (core : CoreState) → core.start ≡ 1700000000 → MayTake core event.now }
        requires asked { (core : CoreState) → core.start ≡ 1700000000 → IsAsked core (event_second event.now) }
        requires owned { (cores : ℕ) → cores ≡ 1 → BringsOwned cores event.now }
    {
        let mut store = self.store;
        match store.take(*event) {
            Ok(_) => Ok(Running { store }),
            Err(_) => Err(store.into_disk()),
        }
    }
}

/// An item comes, the second is sealed, a ballot is tried, and the core votes with itself until it holds the root.
fn event(n: usize) -> CoreEvent
    ensures may { (core : CoreState) → core.start ≡ 1700000000 → MayTake core result }
    ensures asked { (core : CoreState) → core.start ≡ 1700000000 → IsAsked core (event_second result) }
    ensures owned { (cores : ℕ) → cores ≡ 1 → BringsOwned cores result }
{
    match n {
        0 => CoreEvent::Submission(0, START, Item::new(root(), 0)),
        1 => CoreEvent::Seal(START),
        2 => CoreEvent::Ballot(START),
        _ => CoreEvent::Receive(0, START, message(n)),
    }
}

/// What the core sends itself: its ballot, its promise, the decree to vote on, its vote, and the root that it then holds.
fn message(n: usize) -> SynodMessage
    ensures ballot { OfBallot result }
    ensures owned { (cores : ℕ) → cores ≡ 1 → NamesOwned cores result }
{
    match n {
        3 => SynodMessage::NextBallot(16),
        4 => SynodMessage::LastVote(LastVote {
            ballot: 16,
            vote: None,
        }),
        5 => SynodMessage::BeginBallot(16, root()),
        6 => SynodMessage::Voted(16),
        _ => SynodMessage::Success(root()),
    }
}

/// The imprint of the one item, and so the root of its tree.
fn root() -> Imprint {
    Imprint::of_digest(&[7; 32])
}

/// The disk after the file is made and opened and the events came, up to the first call that fails.
fn run(alloc: Global, failing: Vec<u64>) -> Result<MemDisk, Fail> {
    let mut disk = MemDisk::new(alloc, b"", 500, 50, failing)?;
    if format(0, &CorePlan::new(1, START), &mut disk).is_err() {
        return Ok(disk);
    }
    Ok(match Running::<Sha, MemDisk>::open(alloc, disk) {
        Ok(running) => go_on(running),
        Err(disk) => disk,
    })
}

fn go_on(running: Running<Sha, MemDisk>) -> MemDisk {
    let mut running = running;
    for n in 0..8usize {
        running = match running.take(&event(n)) {
            Ok(running) => running,
            Err(disk) => return disk,
        };
    }
    running.store.into_disk()
}

static FATES: [Fate; 12] = [
    Fate::Lost,
    Fate::Whole,
    Fate::Front(1),
    Fate::Front(4),
    Fate::Front(5),
    Fate::Front(13),
    Fate::Front(18),
    Fate::Front(22),
    Fate::Filled(0),
    Fate::Filled(1),
    Fate::Filled(7),
    Fate::Filled(255),
];

/// Whether an image opens to a core with so many facts, or with one more where that may be: the first is that the second is
/// sealed, and the fifth that its root is held.
fn opens_to(alloc: Global, image: &[u8], least: u64, most: u64) -> Result<bool, Fail> {
    Ok(match opened(alloc, image, START)? {
        Ok(counts) => {
            least <= counts.records
                && counts.records <= most
                && counts.sealed == u64::from(counts.records >= 1)
                && counts.held == u64::from(counts.records >= 5)
        }
        Err(_) => false,
    })
}

/// Whether all images of that moment open so. Behind the file's two moments and the opening's each fact has four: it is
/// written, synced, its gate is opened, and synced; from the third on it may be there, from the fourth on it is.
fn all_open(alloc: Global, disk: &MemDisk, moment: usize) -> Result<bool, Fail> {
    if moment > disk.moments() {
        return Ok(false);
    }
    let since = moment.saturating_sub(3) as u64;
    let mut open = true;
    for fate in &FATES {
        let image = disk.image(moment, *fate)?;
        open = opens_to(alloc, image.as_slice(), since / 4, (since + 1) / 4)? && open;
    }
    Ok(open)
}

#[test]
fn a_core_is_opened_again_whenever_it_is_stopped(rt: HostRuntime) -> Result<(), Fail> {
    let alloc = rt.alloc();
    let disk = run(alloc, Vec::new(alloc))?;
    assert!(rt; disk.moments() == 23 && disk.calls() == 26);
    for moment in 2..24usize {
        assert!(rt; all_open(alloc, &disk, moment)?);
    }
    Ok(())
}

/// Whether the images that the disk leaves open so, where its call of this number fails. The first two make the file.
fn fails_so(alloc: Global, call: u64) -> Result<bool, Fail> {
    let mut failing = Vec::new(alloc);
    failing.push(call)?;
    let disk = run(alloc, failing)?;
    Ok(disk.faults() == 1 && all_open(alloc, &disk, disk.moments())?)
}

#[test]
fn a_core_is_opened_again_whichever_call_fails(rt: HostRuntime) -> Result<(), Fail> {
    for call in 2..25u64 {
        assert!(rt; fails_so(rt.alloc(), call)?);
    }
    Ok(())
}
