//! A core of the calendar, as a state machine. For each second it collects the items that aggregators submit, seals them, votes
//! with the other cores on the second's root by Lamport's Synod, and sends each aggregator the path from its item to the root
//! of the calendar.
//!
//! A [`Core`] takes one call at a time and returns a [`Step`]: an [`Answer`], the [`Fact`] to store, if any, and the messages to
//! send for the second of the call. Nothing is sent, stored or timed here. Contracts describe each second of a core by
//! `state_of`: its part in the vote, its open items and its sealed ones. The layer above may rely on three things. Each call's
//! answer, messages and new second are those of its row in `specs/Rows`, and all other seconds are unchanged. Each refusal
//! occurs exactly if its clause says so. After `NoMemory` nothing has changed.
//!
//! The stable part of a second has a fixed size, except for its sealed items, which are in one list for all seconds. The stable
//! parts of the settled seconds (those from the start up to the first that is not held) are in a list, and the others in a map.
//! If nothing but its root is stored for a settled second, the list may store it as a bare root of 33 bytes. The calendar grows
//! when the list does, so `respond` and `publish` change nothing. Ballots in hand and open items are in a map of their own,
//! which `restart` clears; a ballot in hand stays until then, even if the second is held. `settled` returns the length of the
//! list, and `first_not_held` looks there alone.
//!
//! The state of a core is a fold over its facts: `from_facts` builds a core from a list of them, and `may_store` and `store`
//! take them one by one. [`laws`] proves that the facts of a core's steps are valid, and that a core rebuilt from them is the
//! core after a restart.
//!
//! ```text
//! let mut core = Core::<Sha>::new(alloc, 0, &CorePlan::new(3, start));
//! core.submission(aggregator, second, item)?;
//! core.seal(second)?;
//! for send in core.ballot(second)?.sends.as_slice() { deliver(send) }
//! let step = core.respond(second)?;
//! ```
#![tactic(auto)]

mod chaining;
mod counted;
mod event;
mod fact;
mod growing;
mod held;
mod lawful;
pub mod laws;
mod lazy_calendar;
mod lent_items;
mod node;
mod receiving;
mod responding;
mod restoring;
mod seconds;
mod sending;
mod settled;
mod settled_parts;
mod stable;
mod stable_parts;
mod step;
mod volatile;
mod volatile_parts;

pub use chaining::HeldChain;
pub use counted::SecondCounts;
pub use event::CoreEvent;
pub use fact::{Fact, SealedItems, What};
pub use ksi_imprint::NoMemory;
pub use ksi_signature::Answer;
pub use ksi_split::Steps;
pub use ksi_synod::{CorePlan, Voters};
pub use lent_items::LentItems;
pub use node::Core;
pub use step::{Send, Step};
