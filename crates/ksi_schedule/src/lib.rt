//! Schedules: a plan of cores, their voters and aggregators, and the events of a run, as values and as texts. Requests and
//! the submissions of an aggregator may have a name.
//!
//! In contracts a [`Schedule`] is its plan and its list of events. Its type ensures the limits: at most a million events,
//! each with an actor and a second of the plan. The layers above may rely on this. [`read_schedule`] returns exactly the
//! schedule that the lines of a text encode, or the first invalid line with its fault. [`print`] returns a text that
//! encodes the schedule. Every text either encodes one schedule or has one first fault, and what it encodes is within the
//! limits, by the laws [`laws::schedule_or_fault`] and [`laws::spelled_is_schedule`]. Reading passes over the text once and
//! keeps only the schedule's own lists. [`read_number`] reads a number of decimal digits, in a schedule and in a command's
//! words alike.
//!
//! ```text
//! match read_schedule(alloc, b"ksi-schedule 1\ncores 3\nstart 1700000000\nseal 0 1700000000\n") {
//!     Ok(schedule) => run(schedule.plan(), schedule.events()),
//!     Err(Refused::Fault(ScheduleFault::Line(fault, line))) => tell(fault, line),
//!     Err(Refused::NoMemory) => {}
//! }
//! ```
#![tactic(auto)]

mod actor;
mod cut;
mod decimal;
mod event;
mod fault;
mod growing;
pub mod laws;
mod members;
mod parent;
mod plan;
mod printing;
mod reading;
mod rows;
mod schedule;
mod version;
mod word;

pub use actor::Actor;
pub use decimal::read_number;
pub use event::Event;
pub use fault::{LineFault, ScheduleFault};
pub use ksi_aggtree::Name;
pub use ksi_imprint::{NoMemory, Refused};
pub use parent::Parent;
pub use plan::{Parents, Plan};
pub use printing::print;
pub use reading::read_schedule;
pub use schedule::{Events, Schedule};
