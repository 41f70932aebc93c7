//! What the record of a live run shows, and what the logs of its nodes show together: the laws of histories hold of the run.
//!
//! The layer above may rely on this. If [`retrace`](ksi_records::retrace) agrees, its clause `history` says that the record is
//! that of a history. Then everything that holds over every history holds of the run. In particular, each signature that the
//! record hands out can be extended to every covered second, is then accepted, and an audit shows its hash, or has a SHA-256
//! collision (`agreeing_records_hold`). If the logs of all nodes agree and fit together, the same holds of their history
//! (`agreeing_logs_hold`). And each message of a history, printed as a line, is one that its addressee takes
//! (`messages_are_taken`). Nothing here runs.
#![tactic(auto)]

pub mod laws;
