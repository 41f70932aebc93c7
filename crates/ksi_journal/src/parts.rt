use ksi_aggtree::Second;
use ksi_imprint::{Bytes, Imprint};
use ksi_synod::VotersFrom;

/// What a journal is made of: the first second of its calendar, from which second on which cores vote, the kept seconds,
/// the number and the bytes of each issued signature, and each published time with the root of the calendar to it, all in
/// order.
#[derive(Drop)]
pub struct Parts {
    pub start: u64,
    pub voters: Vec<VotersFrom>,
    pub seconds: Vec<Second>,
    pub issued: Vec<(u64, Bytes)>,
    pub publications: Vec<(u64, Imprint)>,
}
