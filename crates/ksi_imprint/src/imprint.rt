ghost use Rattle.std.specs.Prelude.{◌≡◌, ◌∷◌, ◌↔◌, ℕ, List, IsTrue, length, slice_index, drop};
ghost use Rattle.ksi_imprint.specs.Imprints.{IsImprint, zero_imprint};
ghost use Rattle.ksi_imprint.specs.Reading.{digit_fault_of, hex_at, imprint_at};
ghost use Rattle.hex.specs.Hex.{encode_lower};

use crate::fault::{HexFault, ImprintFault};
use hex::FromHexError;
use std::marker::Model;

/// The algorithm byte of SHA-256, 0x01, and a digest of 32 bytes. A contract sees the 33 bytes.
#[derive(Clone, Copy, PartialEq, Eq, PartialOrd, Ord, Debug)]
pub struct Imprint {
    bytes: [u8; 33],
}

impl Model for Imprint {
    ghost Value = { List ℕ };

    ghost view = { λ imprint. imprint.bytes };

    ghost invariant = { λ imprint. slice_index imprint.bytes 0 ≡ 1 };

    ghost inverse = { λ bytes. record { bytes = bytes } };
}

impl Imprint {
    /// The imprint of 32 zero bytes, which stands for a second without a root.
    pub const ZERO: Imprint = Imprint {
        bytes: [
            1, 0, 0, 0, 0, 0, 0, 0, 0, 0, 0, 0, 0, 0, 0, 0, 0, 0, 0, 0, 0, 0, 0, 0, 0, 0, 0, 0, 0,
            0, 0, 0, 0,
        ],
    };

    /// The imprint of a digest.
    pub fn of_digest(digest: &[u8; 32]) -> Self
        ensures { result ≡ 1 ∷ digest.now }
    {
        let mut bytes = [1; 33];
        bytes[1..].copy_from_slice(digest);
        Imprint { bytes }
    }

    /// The imprint that the bytes are. The algorithm byte is looked at before the length.
    pub fn read(bytes: &[u8]) -> Result<Self, ImprintFault>
        ensures { result ≡ imprint_at bytes.now }
    {
        match bytes {
            [] => Err(ImprintFault::Length(0)),
            [1, ..] => match <[u8; 33]>::try_from(bytes) {
                Ok(bytes) => Ok(Imprint { bytes }),
                Err(_) => Err(ImprintFault::Length(bytes.len())),
            },
            [algorithm, ..] => Err(ImprintFault::Algorithm(*algorithm)),
        }
    }

    /// The imprint of a digest that is written in hex, in digits of either case.
    pub fn from_hex(text: &str) -> Result<Self, HexFault>
        ensures { result ≡ hex_at text.now }
    {
        if text.len() != 64 {
            return Err(HexFault::Length(text.len()));
        }
        let mut digest = [0; 32];
        match hex::decode_to_slice(text.as_bytes(), &mut digest) {
            Ok(()) => Ok(Imprint::of_digest(&digest)),
            Err(fault) => Err(digit_fault(fault)),
        }
    }

    /// Whether this is the imprint that stands for a second without a root.
    pub fn is_zero(&self) -> bool
        ensures { IsTrue result ↔ (self.now ≡ zero_imprint) }
    {
        *self == Imprint::ZERO
    }

    pub fn bytes(&self) -> &[u8; 33]
        ensures value { result.now ≡ self.now }
        ensures imprint { IsImprint result.now }
    {
        &self.bytes
    }

    /// Writes the digest in hex, in lower case.
    pub fn write_hex(&self, out: &mut [u8; 64])
        ensures lower_case { out.new ≡ encode_lower (drop 1 self.now) }
        ensures read_again { hex_at out.new ≡ Ok self.now }
    {
        let (_, digest) = self.bytes.split_at(1);
        write_digits(digest, out);
    }
}

// A text of 64 bytes has no other fault than a byte that is no digit.
fn digit_fault(fault: FromHexError) -> HexFault
    ensures { result ≡ digit_fault_of fault }
{
    match fault {
        FromHexError::InvalidHexCharacter { index, .. } => HexFault::Digit(index),
        _ => HexFault::Length(64),
    }
}

fn write_digits(digest: &[u8], out: &mut [u8; 64])
    requires { length digest.now ≡ 32 }
    ensures lower_case { out.new ≡ encode_lower digest.now }
    ensures read_again { hex_at out.new ≡ Ok (1 ∷ digest.now) }
{
    let _ = hex::encode_to_slice(digest, out);
}
