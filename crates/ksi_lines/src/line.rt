ghost use Rattle.std.specs.Prelude.{◌≡◌, ℕ, ◌≤◌, length};

use arrayvec::ArrayVec;
use std::marker::Model;

/// A line that is to be put, at most 32,767 bytes long. A contract sees its bytes.
#[derive(Drop)]
pub struct Line {
    text: Text,
}

/// A line of at most 255 bytes allocates no memory, so a refusal is printed even if there is none.
#[derive(Drop)]
pub enum Text {
    Short(ArrayVec<u8, 255>),
    Long(Vec<u8>),
}

impl Model for Line {
    ghost use Rattle.std.specs.Prelude.{◌≤◌, ℕ, List, length};
    ghost use Rattle.ksi_lines.specs.Printed.{text_bytes};

    ghost Value = { List ℕ };

    ghost view = { λ line. text_bytes line.text };

    ghost invariant = { λ line. length (text_bytes line.text) ≤ 32767 };
}

impl Line {
    /// A line that takes no memory.
    pub fn short(text: ArrayVec<u8, 255>) -> Self
        ensures { result ≡ text.items }
    {
        let _ = text.len();
        Line {
            text: Text::Short(text),
        }
    }

    /// A line of any length.
    pub fn long(text: Vec<u8>) -> Self
        requires { length text.items ≤ 32767 }
        ensures { result ≡ text.items }
    {
        Line {
            text: Text::Long(text),
        }
    }

    pub fn as_bytes(&self) -> &[u8]
        ensures value { result.now ≡ self.now }
        ensures fits { length result.now ≤ 32767 }
    {
        match &self.text {
            Text::Short(text) => text.as_slice(),
            Text::Long(text) => text.as_slice(),
        }
    }
}
