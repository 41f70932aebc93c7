//! The compacted file of a core that forgets: of each forgotten second it keeps the record of the root and drops the others.
//!
//! [`forget`] reads the file of a core and writes the compacted one to a new disk. Each record that is kept is copied byte for
//! byte, and the format is that of `ksi_nodestore`, so the new file opens as a file with fewer facts. The layers above may rely
//! on this: these are the facts left of the old file (`left_of` of `ksi_laws_forgetting`), and a root is held for each second
//! that is forgotten. By the laws there, a core opened over the new file is not distinguished from one over the old file, as long
//! as it refuses the events that `is_taken` refuses.
//!
//! ```text
//! let done = forget::<Sha, HostDisk, HostDisk>(alloc, 0, &plan, second, old, &mut fresh)?;
//! assert!(done.left <= done.records);
//! ```
#![tactic(auto)]

mod forgetting;
mod forgotten;
mod horizons;
mod left;
mod putting;

pub use forgetting::forget;
pub use forgotten::{ForgetRefusal, Forgotten};
