use ksi_imprint::{Clash, Imprint};
use ksi_split::Way;
use ksi_verifier::Refusal;

/// The place of an accepted signature's hash in a journal, or the reason why the audit finds none.
#[derive(Drop)]
pub enum Audit {
    /// It is a node of the tree that is kept for this second, the one that these sides lead to from the top.
    Inside(u64, Way),
    /// It stands beneath this item of this second: this many links lead from it to the item.
    Beneath(u64, u64, u64),
    /// The string of a link, and another kept one with the same imprint.
    Clash(Clash),
    /// The first check that the signature fails.
    NotAccepted(Refusal),
    /// The publication time is before the start of the journal.
    BeforeStart(u64),
    /// The first second, from the start to the publication time, that is not kept.
    Undecided(u64),
    /// At the publication time, the root that the signature leads to is not the kept one.
    NotDecided(u64, Imprint, Imprint),
}
