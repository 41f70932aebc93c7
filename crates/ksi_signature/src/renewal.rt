//! A lent signature with another calendar chain.

ghost use Rattle.std.specs.Prelude.{◌≡◌, ◌↔◌, ◌≤◌, ℕ, Ok, Err, IfOk, length};
ghost use Rattle.ksi_imprint.specs.declared.refused.Refused.TheVariants as refused;
ghost use Rattle.ksi_signature.specs.declared.refusal.WriteRefusal.TheVariants as refusals;
ghost use Rattle.ksi_signature.specs.File.{IsSignature};
ghost use Rattle.ksi_tlv.specs.Spelling.{AreBytes};
ghost use Rattle.ksi_signature.specs.Reading.{signature_at};
ghost use Rattle.ksi_signature.specs.Extended.{extended_content, extended_text, renewed, IsTooLong};
ghost use Rattle.ksi_signature.specs.Seen.{seen, bytes_seen};

use crate::bodies::LONGEST;
use crate::carried::{calendar_is_kept, record_is_kept};
use crate::extension::{content_size, text_with};
use crate::laws::{extended_is_signature, shown_is_of_bytes};
use crate::refusal::WriteRefusal;
use crate::signature::{CalendarChain, PublicationRecord};
use crate::signature_view::SignatureView;
use crate::within::are_bytes;
use ksi_imprint::{Bytes, NoMemory, Refused};
use ksi_tlv::grammar::laws::whole_or_fault;
use ksi_tlv::laws::{front_by_spelling, reading_is_elements};
use std::alloc::Global;

impl SignatureView<'_> {
    /// The bytes of the signature with this calendar chain and this publication record in place of what it has of both,
    /// as [`crate::with_calendar`] gives them of bytes that are read first.
    ///
    /// # Errors
    /// `TooLong` with the size of the new content where that is above 65,535 bytes. `NoMemory` only where it is not.
    pub fn with_calendar(
        &self,
        alloc: Global,
        calendar: &CalendarChain,
        publication: &PublicationRecord,
    ) -> Result<Bytes, Refused<WriteRefusal>>
        ensures text { IfOk result (λ text. text ≡ extended_text (bytes_seen self.now) calendar.now publication.now) }
        ensures too_long { (n : ℕ) → (result ≡ Err (refused.Fault (refusals.TooLong n))) ↔
            IsTooLong (length (extended_content (bytes_seen self.now) calendar.now publication.now)) n }
        ensures wanting { result ≡ Err refused.NoMemory → length (extended_content (bytes_seen self.now) calendar.now publication.now) ≤ 65535 }
        ensures again { IfOk result (λ text. IsSignature text (renewed (seen self.now) calendar.now publication.now)) }
    {
        whole_or_fault();
        front_by_spelling();
        reading_is_elements();
        extended_is_signature();
        calendar_is_kept(calendar);
        record_is_kept(publication);
        are_bytes(self.bytes);
        shown_is_of_bytes(self);
        let total = content_size(self.bytes, &self.at, calendar, publication);
        if total > LONGEST {
            return Err(Refused::Fault(WriteRefusal::TooLong(total)));
        }
        match text_with(alloc, self.bytes, &self.at, calendar, publication) {
            Ok(text) => Ok(text),
            Err(NoMemory) => Err(Refused::NoMemory),
        }
    }
}
