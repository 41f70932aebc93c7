ghost use Rattle.std.specs.Prelude.{◌≡◌, ◌⊎◌, ◌++◌, ◌+◌, ◌<◌, ◌^◌, None, Err, IfOk, IfSome, length};
ghost use Rattle.ksi_imprint.specs.Refused.{IfRefused};
ghost use Rattle.ksi_imprint.specs.declared.refused.Refused.TheVariants.{Fault};
ghost use Rattle.ksi_journal.specs.declared.fault.JournalFault.TheVariants.{Magic};
ghost use Rattle.ksi_journal.specs.Journal.{Contents};
ghost use Rattle.ksi_journal.specs.File.{magic, IsJournalFile, IsJournalFault, IsOther, IsWantingInside};

use crate::fault::JournalFault;
use crate::journal::Journal;
use crate::laws::{are_bytes, file_is_journal};
use crate::loading::Loading;
use crate::version::Version;
use ksi_imprint::{Compress, Refused};
use ksi_tlv::after_magic;
use ksi_tlv::order::walk;
use std::alloc::Global;

/// Loads a journal of either version, whose trees it computes.
///
/// # Errors
/// The first fault in order of bytes, or `NoMemory`: only for an element behind the start that has no fault, and before
/// which there is none, or where the bytes are a journal.
pub fn load<C: Compress>(alloc: Global, bytes: &[u8]) -> Result<Journal<C>, Refused<JournalFault>>
    ensures journal { IfOk result (λ journal. IsJournalFile C.image bytes.now journal) }
    ensures refused { IfRefused result (IsJournalFault C.image bytes.now)
        (IsWantingInside C.image bytes.now ⊎ ((journal : Contents) × IsJournalFile C.image bytes.now journal)) }
    ensures other { IsOther bytes.now → result ≡ Err (Fault Magic) }
{
    are_bytes(bytes);
    file_is_journal();
    let Some((version, rest)) = after_version(bytes) else {
        return Err(Refused::Fault(JournalFault::Magic));
    };
    let mut loading = Loading::<C>::new(alloc, version);
    match walk(&mut loading, 8, rest) {
        Ok(()) => {
            let journal = Journal::new(alloc, loading.into_parts())?;
            Ok(journal)
        }
        Err(refused) => Err(refused),
    }
}

/// The version by the magic that the bytes begin with, and the part after it.
fn after_version(bytes: &[u8]) -> Option<(Version, &[u8])>
    ensures some { IfSome result (λ found. bytes.now ≡ magic found.0 ++ found.1.now) }
    ensures short { IfSome result (λ found. 8 + length found.1.now < 2 ^ 64) }
    ensures none { result ≡ None → IsOther bytes.now }
{
    if let Some(rest) = after_magic(bytes, Version::One.magic()) {
        return Some((Version::One, rest));
    }
    match after_magic(bytes, Version::Two.magic()) {
        Some(rest) => Some((Version::Two, rest)),
        None => None,
    }
}
