ghost use Rattle.std.specs.Prelude.{IfOk};
ghost use Rattle.ksi_imprint.specs.Refused.{IfRefused};
ghost use Rattle.ksi_consistency.specs.File.{IsFrontFile, IsFrontFault};
ghost use Rattle.ksi_consistency.specs.Wanting.{IsWantingInside};

use crate::fault::FrontFault;
use crate::loading::Loading;
use crate::value::Front;
use ksi_imprint::Refused;
use ksi_tlv::after_magic;
use ksi_tlv::order::walk;
use std::alloc::Global;

/// What the file of a front begins with.
pub(crate) const MAGIC: &[u8] = b"KSIFRNT1";

/// Reads the file of a front.
///
/// # Errors
/// The first fault in order of bytes, or `NoMemory`: only for an imprint behind both seconds, up to which there is no fault.
#[tactic(auto, unfolding(crate::specs::File::front_format))]
pub fn read_front(alloc: Global, bytes: &[u8]) -> Result<Front, Refused<FrontFault>>
    ensures front { IfOk result (λ front. IsFrontFile bytes.now front) }
    ensures fault { IfRefused result (IsFrontFault bytes.now) (IsWantingInside bytes.now) }
{
    let Some(rest) = after_magic(bytes, MAGIC) else {
        return Err(Refused::Fault(FrontFault::Magic));
    };
    let mut loading = Loading::new(alloc);
    match walk(&mut loading, 8, rest) {
        Ok(()) => Ok(loading.into_front()),
        Err(refused) => Err(refused),
    }
}
