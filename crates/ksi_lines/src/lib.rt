//! The printed lines of faults, refusals and answers, and the printer of any other line.
//!
//! In contracts a [`Line`] is its bytes, at most 32,767 of them. The layers above may rely on this: [`print`] returns
//! exactly the texts of its words, separated by single spaces, and a line feed. The lines of faults of files, failed
//! checks, refused extensions, audits, fronts, masked blocks and mirrors are exactly their definitions (`FaultWords`,
//! `Lines`, `Answers`, `Blocks`, `Mirrors`). Only the line of a clash allocates memory.
//!
//! ```text
//! let line = print(Text("accepted"), &[], &[Number(second)]);
//! let line = signature_fault_line(1, fault);
//! out.put(line.as_bytes())?;
//! ```
#![tactic(auto)]

mod auditing;
mod blocks;
mod comparing;
mod extending;
mod faults;
mod line;
mod merging;
mod printing;
mod refusals;

pub use auditing::{audit_line, before_start_line, undecided_line};
pub use blocks::{level_line, located_line, log_refused_line, no_line_line};
pub use comparing::compared_line;
pub use extending::not_extended_line;
pub use faults::{
    front_fault_line, journal_fault_line, node_fault_line, proof_fault_line,
    publications_fault_line, schedule_fault_line, signature_fault_line,
};
pub use line::Line;
pub use merging::{not_merged_line, not_whole_line};
pub use printing::{Word, print};
pub use refusals::refusal_line;
