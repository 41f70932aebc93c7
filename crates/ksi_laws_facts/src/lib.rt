//! The part of a history that survives restarts, and the part that a restart forgets, as functions of what can be observed
//! from outside.
//!
//! The observation of an event is the event, the message that it takes from the wire, its answer, and the messages that it
//! sends (`specs/Seen`). It determines the operations of each actor (`specs/Deeds`): the facts, which survive restarts, and
//! the open items. It also determines which messages came to a core since it tried a ballot (`specs/Since`). None of these
//! reads a state: answers and messages are those that `ksi_world` gives.
//!
//! The layers above may rely on this. Facts only grow, and a restart adds none. Everything that a core or an aggregator
//! keeps after a history is a function of the observations: sealed and closed items, the ballots tried and promised, the
//! vote, the root, the response, the open items, and the ballot in hand (`specs/State`). So the answer of the next event,
//! the facts that it adds and the messages that it sends are functions of the observations before: those of its row of the
//! step table (`specs/Steps`). [`laws`] has these statements, [`laws::history_is_recalled`] all of them together. Nothing
//! here runs.
#![tactic(auto)]

pub mod laws;
