use ksi_imprint::{Compress, Imprint, Sha};
use std::test::Fail;

/// The imprint whose digest is this byte and zero bytes behind it.
pub(crate) fn named(first: u8) -> Imprint {
    let mut digest = [0; 32];
    digest[0] = first;
    Imprint::of_digest(&digest)
}

/// The hash of no bytes.
pub(crate) fn hash() -> Imprint {
    Sha::of(b"")
}

/// The hash of no bytes by A; else the imprint of all hex digits, or of the first two.
pub(crate) fn imprint(word: &str) -> Result<Imprint, Fail> {
    match word.len() {
        1 => Ok(hash()),
        64 => Ok(Imprint::from_hex(word)?),
        _ => Ok(named(u8::from_str_radix(word, 16)?)),
    }
}
