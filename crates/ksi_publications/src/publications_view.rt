ghost use Rattle.std.specs.Prelude.{◌≡◌, ◌+◌, ◌^◌, ◌<◌, length, Ok};
ghost use Rattle.ksi_tlv.specs.Containing.{container_verdict};
ghost use Rattle.ksi_publications.specs.Tables.{file_table};

use crate::containers::{MAGIC, RECORD};
use crate::fault::PublicationsFault;
use crate::laws::file_or_fault;
use crate::reader::{behind_magic, pair_of};
use ksi_imprint::Imprint;
use ksi_tlv::Elements;
use ksi_tlv::grammar::laws::inside_is_whole;

/// A publications file, lent from its bytes.
#[derive(Clone, Copy)]
pub struct PublicationsView<'a> {
    rest: &'a [u8],
    ghost accepted: { container_verdict file_table 0 8 rest.now ≡ Ok tt },
    ghost short: { 8 + length rest.now < 2 ^ 64 },
}

impl<'a> PublicationsView<'a> {
    ghost use Rattle.std.specs.Prelude.{◌≡◌, ◌↔◌, Err, IfOk};
    ghost use Rattle.ksi_publications.specs.declared.fault.PublicationsFault.{PublicationsFault};
    ghost use Rattle.ksi_publications.specs.File.{IsPublications, IsPublicationsFault};
    ghost use Rattle.ksi_publications.specs.Finding.{find};
    ghost use Rattle.ksi_publications.specs.Lent.{lent_pairs};

    /// The publications file that bytes are, lent from them, else their first fault in reading order. No memory is taken.
    pub fn of(bytes: &'a [u8]) -> Result<Self, PublicationsFault>
        ensures pairs { IfOk result (λ view. IsPublications bytes.now (lent_pairs view)) }
        ensures fault { (fault : PublicationsFault) → (result ≡ Err fault) ↔ IsPublicationsFault bytes.now fault }
    {
        file_or_fault();
        inside_is_whole();
        match behind_magic(bytes) {
            Ok(rest) => Ok(PublicationsView { rest }),
            Err(fault) => Err(fault),
        }
    }

    /// The hash that was published for a time, of several the first; none where no record has the time.
    pub fn find(&self, time: u64) -> Option<Imprint>
        ensures { result ≡ find time (lent_pairs self.now) }
    {
        inside_is_whole();
        let mut elements = Elements::at(MAGIC.len(), self.rest);
        while let Some(item) = elements.next() {
            if let Ok(at) = item {
                if at.element.kind == RECORD {
                    let pair = pair_of(&at);
                    if pair.0 == time {
                        return Some(pair.1);
                    }
                }
            }
        }
        None
    }
}
