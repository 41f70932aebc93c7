ghost use Rattle.std.specs.Prelude.{◌≡◌, ℕ, List, IfOk};

use crate::NoMemory;
use std::alloc::Global;
use std::marker::Model;

/// Bytes that are owned. A contract sees their list.
#[derive(Drop)]
pub struct Bytes {
    vec: Vec<u8>,
}

impl Model for Bytes {
    ghost Value = { List ℕ };

    ghost view = { λ bytes. bytes.vec.items };
}

impl Bytes {
    /// The bytes of a `Vec`, which is not copied.
    pub fn from_vec(vec: Vec<u8>) -> Self
        ensures { result ≡ vec.items }
    {
        Bytes { vec }
    }

    /// A copy of borrowed bytes.
    pub fn copy_of(alloc: Global, bytes: &[u8]) -> Result<Self, NoMemory>
        ensures { IfOk result (λ copy. copy ≡ bytes.now) }
    {
        Ok(Bytes {
            vec: bytes.to_vec(alloc)?,
        })
    }

    pub fn as_slice(&self) -> &[u8]
        ensures { result.now ≡ self.now }
    {
        &self.vec
    }

    /// The `Vec` of the bytes, which are not copied.
    pub fn into_vec(self) -> Vec<u8>
        ensures { result.items ≡ self }
    {
        let Bytes { vec } = self;
        vec
    }
}
