ghost use Rattle.std.specs.List.{AllByRecursion};
ghost use Rattle.std.specs.Prelude.{◌≡◌, ◌≤◌, ◌*◌, ◌++◌, ◌∷◌, [], Ok, Err, IfOk, OnOk, length};
ghost use Rattle.ksi_imprint.specs.Imprints.{IsImprint};
ghost use Rattle.ksi_imprint.specs.Refused.{OrNoMemory, IfRefused};
ghost use Rattle.ksi_calendar_files.specs.Reading.{file_at, roots_from};

use crate::fault::FileFault;
use crate::file::CalendarFile;
use crate::head::{HEAD, Head, read_head};
use ksi_imprint::{Imprint, NoMemory, Refused};
use std::alloc::Global;

/// How many bytes a file has at most: a head and 4,096 imprints.
pub const FILE_BYTES: usize = 135_229;

/// The calendar file that the bytes encode.
///
/// # Errors
/// The first fault: the magic, a head that is cut off, the plan's digest, a number of the head, the number of bytes, then the
/// first root that is no imprint. `NoMemory`: nothing is returned.
#[tactic(auto, unfolding(crate::specs::Reading::file_at))]
pub fn read_file(alloc: Global, bytes: &[u8]) -> Result<CalendarFile, Refused<FileFault>>
    ensures { OrNoMemory (file_at bytes.now) result }
{
    let head = match read_head(bytes) {
        Ok(head) => head,
        Err(fault) => return Err(Refused::Fault(fault)),
    };
    let needed = HEAD + 33 * head.count as usize;
    if bytes.len() != needed {
        return Err(Refused::Fault(FileFault::Size {
            needed,
            given: bytes.len(),
        }));
    }
    let (_, body) = bytes.split_at(HEAD);
    let roots = read_roots(alloc, head.count as usize, body)?;
    Ok(CalendarFile::new(head.plan, head.start, head.number, roots))
}

/// This many imprints, in bytes that follow a head.
fn read_roots(alloc: Global, count: usize, bytes: &[u8]) -> Result<Vec<Imprint>, Refused<FileFault>>
    requires few { count ≤ 4096 }
    requires size { length bytes.now ≡ 33 * count }
    ensures read { IfOk result (λ roots. roots_from [] 61 count bytes.now ≡ Ok roots.items) }
    ensures count { IfOk result (λ roots. length roots.items ≡ count) }
    ensures imprints { IfOk result (λ roots. AllByRecursion IsImprint roots.items) }
    ensures fault { IfRefused result (λ fault. roots_from [] 61 count bytes.now ≡ Err fault) (Unit {0}) }
{
    let mut roots = Vec::with_capacity(alloc, count)?;
    'reading: for done in 0..count {
        let (_, rest) = bytes.split_at(33 * done);
        let (root, _) = rest.split_at(33);
        match Imprint::read(root) {
            Ok(root) => keep(&mut roots, root)?,
            Err(_) => return Err(Refused::Fault(FileFault::Imprint(HEAD + 33 * done))),
        }
    }
    Ok(roots)
}

/// Appends a root.
fn keep(roots: &mut Vec<Imprint>, root: Imprint) -> Result<(), NoMemory>
    ensures kept { OnOk result (roots.new.items ≡ roots.old.items ++ root ∷ []) }
    ensures imprint { IsImprint root }
{
    let _bytes = root.bytes();
    roots.push(root)?;
    Ok(())
}
