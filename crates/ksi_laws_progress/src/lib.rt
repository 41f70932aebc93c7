//! No history is stuck: events that may follow every history, so that seconds are decided, requests issued and the calendar
//! published. Nothing here runs.
//!
//! These laws state that such events exist, not that they occur: nothing is claimed about progress, time or delivery. Two
//! cores that keep trying can prevent each other from deciding for ever.
//!
//! `specs/Deciding` has the events of a ballot as a function of the history. A core seals a second and tries one ballot.
//! Each message of the ballot to or from some majority of the second's voters is delivered once, in order. Each core is
//! sent the root.
//!
//! The layers above may rely on this. After every schedule, for any such majority, a core of it can decide within 47
//! events. So all seconds can be held, and then `publish` answers. If a core holds nothing and a majority cast no vote, a
//! waiting request can be issued, or its core comes to hold the zero imprint. [`laws`] has these statements, [`vote`] those
//! on the vote alone.
#![tactic(auto)]

pub mod laws;
pub mod vote;
