use ksi_imprint::Refused;

/// Why bytes are no signature. A malformed signature is reported by the codes S1 to S14 with the values of the variant. A
/// place is the offset of an element's first byte in the file.
#[derive(Clone, Copy, Debug, PartialEq, Eq)]
pub enum SignatureFault {
    /// S1: the header or the body at this place passes the end of what holds it.
    Tlv(usize),
    /// S2: bytes follow the signature from this place on.
    After(usize),
    /// S3: the first element is of this kind, not a signature.
    NotSignature(u16),
    /// S4: a kind that is refused by name, 0x804 to 0x806, and its place.
    RefusedElement(u16, usize),
    /// S5: an unknown kind that may not be passed over, and its place.
    UnknownCritical(u16, usize),
    /// S6: the container at this place ends without an element of this kind.
    Missing(u16, usize),
    /// S7: one element too many of this kind, at this place.
    Repeated(u16, usize),
    /// S8: the body is no imprint of SHA-256.
    Imprint(usize),
    /// S9: a number has more than 8 bytes, or a level correction is above 255.
    Number(usize),
    /// S10: the algorithm has this number, which is not that of SHA-256.
    Algorithm(u64),
    /// S11: the 64th link of a chain.
    Links(usize),
    /// S12: the 17th aggregation chain.
    Chains(usize),
    /// S13: a raw sibling of no bytes or of more than 4,096, a second sibling of a link, or a link without one.
    Sibling(usize),
    /// S14: a time is not below 2^63.
    Time(usize),
}

impl From<SignatureFault> for Refused<SignatureFault> {
    ghost use Rattle.std.specs.Prelude.{◌≡◌};
    ghost use Rattle.ksi_imprint.specs.declared.refused.Refused.TheVariants.{Fault};

    ghost from_gives = { λ fault refused. refused ≡ Fault fault };

    fn from(fault: SignatureFault) -> Self {
        Refused::Fault(fault)
    }
}
