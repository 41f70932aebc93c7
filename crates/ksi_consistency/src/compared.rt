use crate::refusal::FrontRefusal;
use ksi_imprint::Clash;

/// What a front shows of two calendars.
#[derive(Drop)]
pub enum Compared {
    /// It is not accepted between their roots.
    NotAccepted(FrontRefusal),
    /// It is, and they have the same leaf of each second that the older one covers.
    Equal,
    /// It is accepted, and they have not: then two different strings have one imprint.
    Clash(Clash),
}
