//! Issued signatures and publications, as they are loaded.
use crate::fault::JournalFault;
use crate::fields::{read_publication, read_signature};
use crate::loading::{Loading, named};
use crate::stage::Stage;
use ksi_imprint::{Bytes, Compress, Refused};
use ksi_tlv::Placed;

impl<C: Compress> Loading<C> {
    ghost use Rattle.std.specs.Prelude.{◌≡◌, Err, IsOk};
    ghost use Rattle.ksi_tlv.specs.Views.{view_placed};
    ghost use Rattle.ksi_tlv.specs.Order.{Steps};
    ghost use Rattle.ksi_imprint.specs.declared.refused.Refused.TheVariants as refused;
    ghost use Rattle.ksi_journal.specs.Elements.{issued_at, publication_at};

    #[tactic(auto, unfolding(crate::specs::Elements::issued_at))]
    pub(crate) fn issued(&mut self, at: &Placed<'_>) -> Result<(), Refused<JournalFault>>
        ensures read { Steps (issued_at self.old (view_placed at.now)) self.new result }
        ensures wanting { result ≡ Err refused.NoMemory → IsOk (issued_at self.old (view_placed at.now)) }
    {
        let (number, bytes) = match read_signature(at, self.least_number) {
            Ok(signature) => signature,
            Err(fault) => return Err(Refused::Fault(named(fault))),
        };
        let copy = match Bytes::copy_of(self.alloc, bytes) {
            Ok(copy) => copy,
            Err(_) => return Err(Refused::NoMemory),
        };
        if self.parts.issued.push((number, copy)).is_err() {
            return Err(Refused::NoMemory);
        }
        self.stage = Stage::Issued;
        self.least_number = u128::from(number) + 1;
        Ok(())
    }

    #[tactic(auto, unfolding(crate::specs::Elements::publication_at))]
    pub(crate) fn publication(&mut self, at: &Placed<'_>) -> Result<(), Refused<JournalFault>>
        ensures read { Steps (publication_at self.old (view_placed at.now)) self.new result }
        ensures wanting { result ≡ Err refused.NoMemory → IsOk (publication_at self.old (view_placed at.now)) }
    {
        let (published, root) = match read_publication(at, self.least_time) {
            Ok(publication) => publication,
            Err(fault) => return Err(Refused::Fault(named(fault))),
        };
        if self.parts.publications.push((published, root)).is_err() {
            return Err(Refused::NoMemory);
        }
        self.stage = Stage::Publications;
        self.least_time = published + 1;
        Ok(())
    }
}
