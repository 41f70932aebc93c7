//! Schedules run through the nodes: the journal of what was kept, issued and published; the mirror of each core; schedules
//! that are generated from a number; and drills, which run one and check every signature.
//!
//! The layers above may rely on this. [`replay`] returns the world whose events are those of the schedule. [`journal_of`]
//! returns the journal of a world: the voters of its plan, its kept seconds with their items, its issued signatures and its
//! publications. [`mirror_of`] returns what a core holds and has sealed. Mirrors of the cores of one history, taken at any
//! moments, are never refused when they are merged. Those of all cores at its end merge to the kept seconds of its journal.
//! [`read_schedule`] and [`print`] are those of `ksi_schedule`, for callers of [`replay`].
//!
//! [`generate`] returns the schedule `generated` of its number (`specs/Generate`), a rule step by step: three cores, six
//! aggregators, and 256 seconds of requests, lost and repeated messages, and restarts. All choices come from a stream of
//! bytes; each block is SHA-256 of `ksi`, the number and the block's number (`specs/Stream`). Message numbers are found by
//! running the events through a world as they are made. When all messages since an event are delivered, the definition
//! considers at most 549, and its stream has 2^64 places, so that it ends for every number. No number reaches either bound,
//! by [`laws`]: deliveries end because no message is left, and greater bounds give the same schedules. There are at most
//! 992,000 events, so each number has a schedule.
//!
//! [`drill`] returns the counts `drilled` of its number (`specs/Drill`): every issued signature is extended to the greatest
//! covered second, and then checked and audited. In every drill the number of accepted signatures is the number of issued
//! ones. It is not proved that inside and beneath add up to this number, since an audit may find a collision of the hash
//! function.
//!
//! [`laws`] has the laws on every history. The journal of a history is one, with or without memory to make it. Over a
//! journal that keeps what the cores keep, each issued signature can be extended to any covered second from its own on. It
//! is then accepted, at the second of its request and for the request's imprint, against all publications whose first
//! record of that second is the journal's root. Each pair that was published, at any moment, is a covered second with this
//! root.
//!
//! ```text
//! let schedule = generate(alloc, 7)?;
//! let world = replay::<Sha>(alloc, schedule)?;
//! let bytes = ksi_journal::write(alloc, &journal_of(alloc, &world)?)?;
//! let tally = drill(alloc, 7)?;
//! ```
#![tactic(auto)]

mod asking;
mod covered;
mod deliveries;
mod drilling;
mod joining;
mod journal;
pub mod laws;
mod maker;
mod manner;
mod mirror;
mod plan;
mod replaying;
mod steps;
mod stream;
mod tally;
mod trial;
mod trials;
mod whole;

pub use drilling::drill;
pub use journal::journal_of;
pub use ksi_imprint::NoMemory;
pub use ksi_schedule::{LineFault, Schedule, ScheduleFault, print, read_schedule};
pub use mirror::mirror_of;
pub use replaying::replay;
pub use tally::Tally;
pub use whole::generate;
