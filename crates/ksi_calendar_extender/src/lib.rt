//! Signatures extended over the roots of a calendar alone, without the items of its seconds.
//!
//! The layer above may rely on this: [`extend`] returns exactly what the definition `extended` of `ksi_extender` gives for the
//! journal that keeps these roots. By [`laws::same_roots`] the bytes, or the first refusal, are those of an extension over any
//! journal that keeps the same roots. By the law of `ksi_extender` the extension is accepted by all publications whose first
//! record of the second is the calendar's root.
//!
//! ```text
//! let calendar = gather::<Sha, _>(alloc, &mut files, "calendar", p)?;
//! let text = extend(alloc, &calendar, bytes, p)?;
//! ```
#![tactic(auto)]

mod extending;
mod kept;
pub mod laws;

pub use extending::extend;
pub use kept::leaf;
pub use ksi_extender::ExtendRefusal;
pub use ksi_imprint::{NoMemory, Refused};
