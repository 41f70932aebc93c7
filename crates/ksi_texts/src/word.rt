use ksi_imprint::Imprint;

/// A word of a row.
#[derive(Clone, Copy)]
pub enum Word<'a> {
    Text(&'a str),
    Number(u64),
    /// A second of Unix time, with its date.
    Second(u64),
    /// The date of a second.
    Date(u64),
    /// All digits of an imprint.
    Digest(&'a Imprint),
    /// The first digits of an imprint's bytes.
    Short(&'a [u8]),
    /// Bytes that anyone may have chosen, in quotes.
    Quoted(&'a [u8]),
}
