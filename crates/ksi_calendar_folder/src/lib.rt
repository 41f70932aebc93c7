//! The calendar over a folder of calendar files: the root of all seconds to a last one, and consistency proofs.
//!
//! A folder has a file for each 4,096 seconds of a plan, named by its number in decimal (docs/FORMATS.md, "Calendar files").
//! The layer above may rely on this: [`gather`] returns exactly the seconds of the files from the plan's first one to the file
//! of the last second, or the first refusal, as the definition `seconds_to` says. Only `Missing` may also be returned for a file
//! that is there and cannot be read. All files but the last one are full, so no second is left out. [`root`] and [`front`] are those of these seconds, by the same definitions as those of
//! a core's calendar and of a journal's.
//!
//! ```text
//! let root = root::<Sha, _>(alloc, &mut files, "calendar", 1_700_000_000)?;
//! let front = front::<Sha, _>(alloc, &mut files, "calendar", 1_700_000_000, 1_700_086_400)?;
//! ```
#![tactic(auto)]

mod fault;
mod fronts;
mod gathering;
mod loading;
mod name;
mod roots;

pub use fault::FolderFault;
pub use fronts::front;
pub use gathering::gather;
pub use ksi_imprint::{NoMemory, Refused};
pub use roots::root;
