use crate::NoMemory;

/// Why a call returns no result: for a reason of its own, or because memory ran out.
#[derive(Clone, Copy, Debug, PartialEq, Eq)]
pub enum Refused<F> {
    /// The call's own reason.
    Fault(F),
    /// There is no memory.
    NoMemory,
}

impl<F> From<NoMemory> for Refused<F> {
    ghost use Rattle.std.specs.Prelude.{◌≡◌};
    ghost use Rattle.ksi_imprint.specs.declared.refused.Refused.TheVariants as refused;

    ghost from_gives = { λ _ refusal. refusal ≡ refused.NoMemory };

    fn from(_: NoMemory) -> Self {
        Refused::NoMemory
    }
}
