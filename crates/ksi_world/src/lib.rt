//! A whole infrastructure as one value: all cores and aggregators of a plan, and the wire between them.
//!
//! A [`World`] takes one [`Event`] at a time and returns an [`Outcome`]: the addressee's answer, and how many messages were
//! sent. [`World::after`] takes the events of a schedule without copying them. The wire has every message that was ever
//! sent, by its number. `Event::Deliver` passes one to its addressee, so a message may be lost, late, repeated or out of
//! order. Any node may restart at any moment. A contract sees the plan and the list of events; `specs/Histories` defines
//! what every node keeps and which messages were sent after them.
//!
//! The layers above may rely on this. Each call's answer is that of `happens`, and all readers show the state after the
//! events so far. `issued` is `issued_of`: the signature of an accepted request, exactly if its round has a response.
//! `kept` has each second for which a core holds a root, with the items of its tree. [`laws`] has the laws on every
//! history. No two cores hold different roots for a second. A held root is that of a missed second, or the imprint of the
//! tree of items that a core sealed. A publication, at any moment, is the calendar's root over the kept seconds. The chains
//! of an issued signature climb from the request's imprint to the root that is kept for its second. After `NoMemory`
//! nothing has changed. Of the readers only `issued` and `kept` allocate memory.
//!
//! ```text
//! let mut world = World::<Sha>::new(alloc, &plan)?;
//! let Outcome { answer, sent } = world.step(Event::Request(0, second, imprint, None))?;
//! world.step(Event::Close(0, second))?;
//! world.step(Event::Deliver(0))?;
//! for kept in world.kept()?.seconds.as_slice() { show(kept.second, kept.root) }
//! ```
#![tactic(auto)]

mod aggregators;
mod core_events;
mod cores;
mod kept;
pub mod laws;
mod letter;
mod message;
mod nodes;
mod outcome;
mod posted;
mod posting;
mod published;
mod same;
mod wire;
mod world;

pub use kept::{Kept, Seconds, items_of};
pub use ksi_aggtree::Second;
pub use ksi_imprint::NoMemory;
pub use ksi_schedule::{Actor, Event, Parents, Plan};
pub use ksi_signature::Answer;
pub use message::{Content, LentMessage, Message};
pub use outcome::{Asked, Outcome};
pub use published::PublishedRoots;
pub use wire::Wire;
pub use world::World;
