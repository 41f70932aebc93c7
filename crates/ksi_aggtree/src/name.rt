ghost use Rattle.std.specs.Prelude.{◌≡◌, ◌≤◌, ◌-◌, ◌↔◌, ◌++◌, ℕ, IsSome, IfSome, length, replicate};
ghost use Rattle.ksi_aggtree.specs.Names.{IsName, most_letters, is_name_byte, are_name_bytes, meta_of};

use crate::meta::Meta;
use std::marker::Model;

/// How many bytes a name may have.
const MOST_LETTERS: usize = 64;

/// The name of who submits: 1 to 64 letters, digits, `.`, `_` and `-` of ASCII. A contract sees its bytes.
#[derive(Clone, Copy, PartialEq, Eq, Debug)]
pub struct Name {
    bytes: [u8; 64],
    length: u8,
}

impl Model for Name {
    ghost use Rattle.std.specs.Prelude.{ℕ, List, take};
    ghost use Rattle.ksi_aggtree.specs.KeptNames.{IsKeptName, fields_of_name, fields_of_name-take};

    ghost Value = { List ℕ };

    ghost view = { λ name. take name.length name.bytes };

    ghost invariant = { λ name. IsKeptName name.bytes name.length };

    ghost inverse = { fields_of_name };

    ghost inverse_ok = { fields_of_name-take };
}

impl Name {
    /// The name that the bytes are, none where they are no name.
    pub fn read(bytes: &[u8]) -> Option<Name>
        ensures name { IsSome result ↔ IsName bytes.now }
        ensures bytes { IfSome result (λ name. name ≡ bytes.now) }
    {
        let length = bytes.len();
        if length == 0 || length > MOST_LETTERS || !are_name_bytes(bytes) {
            return None;
        }
        Some(Name {
            bytes: filled(bytes),
            length: length as u8,
        })
    }

    /// The bytes of the name.
    pub fn as_bytes(&self) -> &[u8]
        ensures bytes { result.now ≡ self.now }
        ensures name { IsName self.now }
    {
        &self.bytes[..self.length as usize]
    }

    /// The metadata that stands for the name in a tree.
    pub fn meta(&self) -> Meta
        ensures meta { result ≡ meta_of self.now }
        ensures name { IsName self.now }
    {
        Meta::of(self.as_bytes())
    }
}

/// The bytes, and zero bytes behind them.
fn filled(bytes: &[u8]) -> [u8; 64]
    requires { length bytes.now ≤ most_letters }
    ensures { result ≡ bytes.now ++ replicate (most_letters - length bytes.now) 0 }
{
    let mut filled = [0; 64];
    let (front, _) = filled.split_at_mut(bytes.len());
    front.copy_from_slice(bytes);
    filled
}

fn is_name_byte(byte: u8) -> bool
    ensures { result ≡ is_name_byte byte }
{
    byte.is_ascii_alphanumeric() || byte == b'.' || byte == b'_' || byte == b'-'
}

fn are_name_bytes(bytes: &[u8]) -> bool
    ensures { result ≡ are_name_bytes bytes.now }
{
    match bytes.split_first() {
        None => true,
        Some((first, others)) => is_name_byte(*first) && are_name_bytes(others),
    }
}
