//! Signatures audited over the roots of a calendar alone, with the items of one second.
//!
//! The layer above may rely on this: [`audit`] returns exactly the answer of `ksi_auditor` over the journal that keeps the
//! calendar's roots and these items, with the calendar's root of one second as the only publication; or the first reason why
//! these items are not those of the signature's second. If the signature is accepted, the answer shows its hash among the items
//! of the second that its calendar links name, or it is a collision (*clash*). Nothing is needed of the items of other seconds.
//!
//! ```text
//! let calendar = gather::<Sha, _>(alloc, &mut files, "calendar", p)?;
//! let answer = audit(alloc, &calendar, p, second, &items, &signature, &hash)?;
//! ```
#![tactic(auto)]

mod auditing;
pub mod laws;
mod publication;
mod refusal;

pub use auditing::audit;
pub use ksi_auditor::Audit;
pub use ksi_imprint::{NoMemory, Refused};
pub use refusal::AuditRefusal;
