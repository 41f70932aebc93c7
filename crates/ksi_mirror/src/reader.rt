ghost use Rattle.std.specs.Prelude.{◌≡◌, Err, IfOk};
ghost use Rattle.ksi_imprint.specs.Refused.{IfRefused};
ghost use Rattle.ksi_imprint.specs.declared.refused.Refused.TheVariants.{Fault};
ghost use Rattle.ksi_journal.specs.declared.fault.JournalFault.TheVariants.{Magic};
ghost use Rattle.ksi_mirror.specs.File.{IsMirrorFile, IsMirrorFault, IsOther, IsWantingInside};

use crate::fault::MirrorFault;
use crate::laws::file_is_mirror;
use crate::loading::MirrorLoading;
use crate::mirror::Mirror;
use ksi_imprint::Refused;
use ksi_tlv::after_magic;
use ksi_tlv::order::walk;
use std::alloc::Global;

/// The bytes that a mirror's file begins with.
pub(crate) const MAGIC: &[u8] = b"KSIMIRR1";

/// Loads a mirror. No tree is computed.
///
/// # Errors
/// The first fault in order of bytes, J1 to J3, J5 to J9, as those of a journal; or `NoMemory`: only for an element behind
/// the start that has no fault, and before which there is none.
#[tactic(auto, unfolding(crate::specs::File::mirror_format))]
pub fn load_mirror(alloc: Global, bytes: &[u8]) -> Result<Mirror, Refused<MirrorFault>>
    ensures mirror { IfOk result (IsMirrorFile bytes.now) }
    ensures refused { IfRefused result (IsMirrorFault bytes.now) (IsWantingInside bytes.now) }
    ensures other { IsOther bytes.now → result ≡ Err (Fault Magic) }
{
    file_is_mirror();
    let Some(rest) = after_magic(bytes, MAGIC) else {
        return Err(Refused::Fault(MirrorFault::Magic));
    };
    let mut loading = MirrorLoading::new(alloc);
    match walk(&mut loading, 8, rest) {
        Ok(()) => Ok(Mirror::new(loading.into_parts())),
        Err(refused) => Err(refused),
    }
}
