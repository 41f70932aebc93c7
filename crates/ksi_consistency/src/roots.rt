use ksi_imprint::Imprint;

/// The root of the first leaves of a tree alone, and that of all leaves.
#[derive(Drop)]
pub(crate) struct Roots {
    pub(crate) old: Imprint,
    pub(crate) new: Imprint,
}
