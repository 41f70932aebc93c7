//! The vote of the cores on the root of one second: Lamport's Synod, also known as Paxos ("The Part-Time Parliament", 1998,
//! section 2.3). The decree is the root.
//!
//! An [`Instance`] is one core's part in the vote. Each call takes one step of the protocol, for one of the five messages or
//! for a command, and returns the result. Nothing is sent, stored or timed here, and no call allocates; `ksi_corenode` decides
//! which call a message needs, what to send and what to store. Contracts describe an `Instance` as a `VoteState`, and each
//! call's answer and new state are those of its row in `specs/Rows`. The layers above rely on these rows and on [`laws`], which
//! hold for every history of steps: agreement, validity and stability.
//!
//! ```text
//! let mut core = Instance::new(0, Voters::all(3));
//! core.candidate(root);
//! let Begun::Next(ballot) = core.try_ballot() else { return };
//! send_to_voters(SynodMessage::NextBallot(ballot));
//! if let Took::Decree(decree) = core.on_last(from, ballot, vote) { begin(ballot, decree) }
//! ```
#![tactic(auto)]

mod core_plan;
mod hand;
mod instance;
pub mod laws;
mod limits;
mod messages;
mod stable;
mod voters;

pub use core_plan::{CorePlan, VotersFrom};
pub use hand::InHand;
pub use instance::Instance;
pub use limits::{PLAN_SECONDS, TOO_LATE};
pub use messages::{Begun, LastVote, SynodMessage, Took, Vote};
pub use stable::Stable;
pub use voters::Voters;
