//! The second up to which a core may forget.
ghost use Rattle.std.specs.Prelude.{◌≡◌, ◌⊎◌, ◌≤◌, ◌<◌, ℕ, None, IsSome};
ghost use Rattle.ksi_corenode.specs.CoreState.{held_by};

use ksi_corenode::Core;
use ksi_imprint::Compress;

/// The greatest second, at most this one, before which the core holds a root for each second from its start on.
pub(crate) fn horizon<C: Compress>(core: &Core<C>, start: u64, before: u64) -> u64
    requires { start ≡ core.now.start }
    ensures sooner { result ≤ before }
    ensures far { (result ≡ before) ⊎ (held_by core.now result ≡ None) }
    ensures held { (t : ℕ) → start ≤ t → t < result → IsSome (held_by core.now t) }
{
    before.min(start.saturating_add(core.settled()))
}
