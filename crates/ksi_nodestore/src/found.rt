use ksi_corenode::Core;
use ksi_imprint::Compress;

/// What was found in a node file: the core of its facts, the place of its standing gate, and how many records there are.
#[derive(Drop)]
pub(crate) struct Found<C: Compress> {
    pub core: Core<C>,
    pub gate: u64,
    pub records: u64,
}
