use crate::sealed_list::SealedList;
use ksi_imprint::Imprint;

/// What a mirror is made of: the first second of the calendar, roots by second, and sealed lists by second and core, all in
/// order.
#[derive(Drop)]
pub struct MirrorParts {
    pub start: u64,
    pub roots: Vec<(u64, Imprint)>,
    pub lists: Vec<SealedList>,
}
