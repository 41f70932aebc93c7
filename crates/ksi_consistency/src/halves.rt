ghost use Rattle.std.specs.Prelude.{◌≡◌, ◌≢◌, ◌↔◌, ◌+◌, IsTrue, IfOk, length};
ghost use Rattle.ksi_consistency.specs.Compared.{halves_text, IsNodeClash};

use ksi_imprint::{Bytes, Clash, Compress, Imprint, NoMemory};
use std::alloc::Global;

/// Both parts that a part of a calendar is joined of.
#[derive(Drop)]
pub(crate) struct Halves {
    pub(crate) left: Imprint,
    pub(crate) right: Imprint,
}

impl Halves {
    pub(crate) fn is_same(&self, other: &Halves) -> bool
        ensures { IsTrue result ↔ (self.now ≡ other.now) }
    {
        self.left == other.left && self.right == other.right
    }

    /// Each of them has 33 bytes.
    fn sizes(&self)
        ensures left { length self.now.left ≡ 33 }
        ensures right { length self.now.right ≡ 33 }
    {
        self.left.bytes();
        self.right.bytes();
    }

    /// The string that their join hashes.
    fn text(&self, alloc: Global) -> Result<Bytes, NoMemory>
        ensures text { IfOk result (λ text. text ≡ halves_text self.now) }
        ensures size { IfOk result (λ text. length text ≡ 67) }
    {
        let mut text = Vec::with_capacity(alloc, 67)?;
        text.extend_from_slice(self.left.bytes())?;
        text.extend_from_slice(self.right.bytes())?;
        text.push(0xff)?;
        Ok(Bytes::from_vec(text))
    }
}

/// The strings of two parts that are joined of others and have one imprint.
pub(crate) fn clash_of<C: Compress>(
    alloc: Global,
    one: &Halves,
    two: &Halves,
) -> Result<Clash, NoMemory>
    requires differ { one.now ≢ two.now }
    requires same { C.image (halves_text one.now) ≡ C.image (halves_text two.now) }
    ensures clash { IfOk result (IsNodeClash C.image) }
    ensures one { IfOk result (λ clash. clash.one ≡ halves_text one.now) }
    ensures two { IfOk result (λ clash. clash.two ≡ halves_text two.now) }
{
    one.sizes();
    two.sizes();
    Ok(Clash {
        one: one.text(alloc)?,
        two: two.text(alloc)?,
    })
}
