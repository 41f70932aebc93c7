//! Nodes that forget are not noticed, as laws: nothing here runs.
//!
//! A core may forget a second that it holds: it keeps the root and drops the rest, which leaves a bare second. From then on it
//! takes only `Tell` and `Publish` for that second (`is_taken` of `ksi_corenode`). [`cores`] proves that such a core has the same
//! answers, facts and messages as one that forgot nothing and never received the events that were refused. The rule is needed: a
//! core that forgot its vote and voted again could help a second root to a majority.
//!
//! An aggregator may drop all rounds before a second, its horizon, and then takes no event for them. [`rounds`] proves the same
//! for it, and that it issues no other signatures.
//!
//! ```text
//! let before = facts;                                    // of a core that holds second 7
//! let after = left_of(|second| second == 7, before);     // the facts left, which are valid
//! ```
#![tactic(auto)]

pub mod cores;
pub mod rounds;
