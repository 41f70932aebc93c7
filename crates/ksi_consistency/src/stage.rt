pub(crate) const OLD: u16 = 0x01;

pub(crate) const NEW: u16 = 0x02;

pub(crate) const IMPRINT: u16 = 0x03;

/// What stands next in the file of a front.
#[derive(Clone, Copy)]
pub enum Stage {
    /// The older calendar's last second.
    Old,
    /// The newer one's.
    New,
    /// An imprint, or the end.
    Imprints,
}

impl Stage {
    ghost use Rattle.std.specs.Prelude.{◌≡◌};
    ghost use Rattle.ksi_tlv.specs.Order.{may_stand};
    ghost use Rattle.ksi_consistency.specs.Elements.{kinds_next};

    /// Whether an element of the kind may come next.
    pub(crate) fn allows(self, kind: u16) -> bool
        ensures { result ≡ may_stand (kinds_next self) kind }
    {
        match self {
            Stage::Old => kind == OLD,
            Stage::New => kind == NEW,
            Stage::Imprints => kind == IMPRINT,
        }
    }
}
