use ksi_imprint::Refused;

/// Why bytes are no publications file. A malformed file is reported by the codes Q1 to Q9 with the values of the variant. A
/// place is the offset of an element's first byte in the file.
#[derive(Clone, Copy, Debug, PartialEq, Eq)]
pub enum PublicationsFault {
    /// Q1: the first eight bytes are others, or fewer.
    Magic,
    /// Q2: the header or the body at this place passes the end of what holds it.
    Tlv(usize),
    /// Q3: a kind that is refused by name, 0x702 or 0x704, and its place.
    RefusedElement(u16, usize),
    /// Q4: an unknown kind that may not be passed over, and its place.
    UnknownCritical(u16, usize),
    /// Q5: the container at this place, 0 for the file, ends without an element of this kind.
    Missing(u16, usize),
    /// Q6: one element too many of this kind, at this place.
    Repeated(u16, usize),
    /// Q7: the hash is no imprint of SHA-256.
    Imprint(usize),
    /// Q8: a number has more than 8 bytes.
    Number(usize),
    /// Q9: a time is not below 2^63.
    Time(usize),
}

impl From<PublicationsFault> for Refused<PublicationsFault> {
    ghost use Rattle.std.specs.Prelude.{◌≡◌};
    ghost use Rattle.ksi_imprint.specs.declared.refused.Refused.TheVariants.{Fault};

    ghost from_gives = { λ fault refused. refused ≡ Fault fault };

    fn from(fault: PublicationsFault) -> Self {
        Refused::Fault(fault)
    }
}
