ghost use Rattle.std.specs.Prelude.{◌≡◌};
ghost use Rattle.ksi_mirror.specs.Mirrors.{mirror_of_parts, IsMirror};

use crate::parts::MirrorParts;
use crate::sealed_list::SealedList;
use ksi_imprint::Imprint;
use std::marker::Model;

/// What of cores is copied: the start, roots by second, and sealed lists by second and core. A contract sees a record of
/// lists, in order, whose bounds are kept.
#[derive(Drop)]
pub struct Mirror {
    parts: MirrorParts,
}

impl Model for Mirror {
    ghost use Rattle.ksi_mirror.specs.Mirrors.{MirrorState, mirror_of_parts, IsMirror};

    ghost Value = { MirrorState };

    ghost view = { λ m. mirror_of_parts m.parts };

    ghost invariant = { λ m. IsMirror (mirror_of_parts m.parts) };
}

impl Mirror {
    /// The mirror of these parts, which are not copied. All seconds are below 2^63 and at or after the start; roots rise by
    /// second, and lists by second and core.
    pub fn new(parts: MirrorParts) -> Self
        requires { IsMirror (mirror_of_parts parts) }
        ensures { result ≡ mirror_of_parts parts }
    {
        Mirror { parts }
    }

    /// The first second of the calendar.
    pub fn start(&self) -> u64
        ensures start { result ≡ self.now.start }
        ensures mirror { IsMirror self.now }
    {
        self.parts.start
    }

    /// Each second that has a root, in order, with it.
    pub fn roots(&self) -> &[(u64, Imprint)]
        ensures roots { result.now ≡ self.now.roots }
        ensures mirror { IsMirror self.now }
    {
        &self.parts.roots
    }

    /// The sealed lists, in order of their seconds, and of one second in that of their cores.
    pub fn lists(&self) -> &[SealedList]
        ensures lists { result.now ≡ self.now.lists }
        ensures mirror { IsMirror self.now }
    {
        &self.parts.lists
    }
}
