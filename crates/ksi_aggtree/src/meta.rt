ghost use Rattle.std.specs.Prelude.{◌≡◌, ◌+◌, ◌-◌, ◌≤◌, ◌++◌, ◌∷◌, length, replicate};
ghost use Rattle.ksi_aggtree.specs.Names.{most_letters, padding, meta_of};

use std::marker::Model;

/// The metadata of a name: an even number of bytes, at most 70. A contract sees the bytes.
#[derive(Drop)]
pub struct Meta {
    bytes: [u8; 70],
    length: u8,
}

impl Model for Meta {
    ghost use Rattle.std.specs.Prelude.{ℕ, List, ◌≤◌, take};

    ghost Value = { List ℕ };

    ghost view = { λ meta. take meta.length meta.bytes };

    ghost invariant = { λ meta. meta.length ≤ 70 };
}

impl Meta {
    /// The bytes, which are not copied.
    pub fn as_slice(&self) -> &[u8]
        ensures bytes { result.now ≡ self.now }
        ensures few { length self.now ≤ 70 }
    {
        &self.bytes[..self.length as usize]
    }

    /// The metadata of these bytes: a padding element that makes the whole even, and the element of the name, which a zero
    /// byte ends.
    pub(crate) fn of(name: &[u8]) -> Self
        requires { length name.now ≤ most_letters }
        ensures { result ≡ meta_of name.now }
    {
        let front = padding(name.len());
        Meta {
            bytes: laid(front, name),
            length: (front.len() + name.len() + 3) as u8,
        }
    }
}

/// A padding, the element of a name, and zero bytes behind it.
fn laid(front: &[u8], name: &[u8]) -> [u8; 70]
    requires front { length front.now ≤ 4 }
    requires name { length name.now ≤ most_letters }
    ensures { result ≡ front.now ++ 1 ∷ (length name.now + 1) ∷ (name.now ++ replicate (68 - length front.now - length name.now) 0) }
{
    let mut bytes = [0; 70];
    let (padding, rest) = bytes.split_at_mut(front.len());
    padding.copy_from_slice(front);
    let (header, rest) = rest.split_at_mut(2);
    header.copy_from_slice(&[1, name.len() as u8 + 1]);
    let (letters, _) = rest.split_at_mut(name.len());
    letters.copy_from_slice(name);
    bytes
}

/// The padding before a name of this many bytes.
fn padding(n: usize) -> &'static [u8]
    ensures bytes { result.now ≡ padding n }
    ensures few { length result.now ≤ 4 }
{
    if n % 2 == 0 {
        &[126, 1, 1]
    } else {
        &[126, 2, 1, 1]
    }
}
