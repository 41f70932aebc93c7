//! Laws of tables and containers, for the proofs of the layers above. They do nothing when they are called.

ghost use Rattle.std.specs.Prelude.{◌≡◌, ◌↔◌, ◌<◌, ◌≤◌, ◌^◌, ◌⊎◌, Bool, true, ℕ, List, length, Ok, Err};
ghost use Rattle.ksi_imprint.specs.Imprints.{IsImprint};
ghost use Rattle.ksi_tlv.specs.Spelling.{Tlv};
ghost use Rattle.ksi_tlv.specs.Walking.{PlacedTlv, elements};
ghost use Rattle.ksi_tlv.specs.Writing.{texts, placed};
ghost use Rattle.ksi_tlv.specs.declared.grammar.fault.ElementFault.{ElementFault};
ghost use Rattle.ksi_tlv.specs.Table.{Table, is_table};
ghost use Rattle.ksi_tlv.specs.Containing.{container_verdict, inner_verdict};
ghost use Rattle.ksi_tlv.specs.Valid.{IsContainer, IsWhole, IsFirstFault};
ghost use Rattle.ksi_tlv.specs.Faults.{PassesFaults};
ghost use Rattle.ksi_tlv.specs.Inside.{whole};
ghost use Rattle.ksi_tlv.specs.Written.{MayBeWritten};
ghost use Rattle.ksi_tlv.specs.Published.{published_table, published_in, published_elements, record_table, recorded_in, record_elements};

use crate::laws::{numeral_is_read, written_is_read};

/// Reading from left to right comes to no fault exactly where the body is whole, and to a fault exactly where it is
/// the first. A body is whole or has a first fault, and not both.
pub fn whole_or_fault()
    ensures whole { (t : Table) (place inside : ℕ) (body : List ℕ) → is_table t ≡ true →
        (container_verdict t place inside body ≡ Ok tt) ↔ IsWhole t inside body }
    ensures fault { (t : Table) (place inside : ℕ) (body : List ℕ) (fault : ElementFault) → is_table t ≡ true →
        (container_verdict t place inside body ≡ Err fault) ↔ IsFirstFault t place inside body fault }
    ensures one { (t : Table) (place inside : ℕ) (body : List ℕ) → is_table t ≡ true →
        IsWhole t inside body ⊎ ((fault : ElementFault) × IsFirstFault t place inside body fault) }
    ensures not_both { (t : Table) (place inside : ℕ) (body : List ℕ) (fault : ElementFault) → is_table t ≡ true →
        IsWhole t inside body → IsFirstFault t place inside body fault → ⊥ }
{}

/// A fault of a container passes each test that passes the faults that any may have and those that its table names.
pub fn faults_by_table()
    ensures { (t : Table) (test : ElementFault → Bool) (place inside : ℕ) (body : List ℕ) (fault : ElementFault) →
        PassesFaults t test → container_verdict t place inside body ≡ Err fault → test fault ≡ true }
{}

/// A container that was accepted is one of the elements that are found in it.
pub fn inside_is_whole()
    ensures { (t : Table) (place inside : ℕ) (body : List ℕ) → is_table t ≡ true →
        container_verdict t place inside body ≡ Ok tt → IsContainer t inside body (whole (elements inside body)) }
{}

/// Elements that a container may have are accepted as they are written, wherever the container is, and are then found in
/// it.
pub fn written_is_whole()
    ensures { (t : Table) (place inside : ℕ) (es : List Tlv) → MayBeWritten t es →
        (container_verdict t place inside (texts es) ≡ Ok tt) × (whole (elements inside (texts es)) ≡ placed inside es) }
{
    written_is_read();
}

/// Published data that is written is accepted and read again.
pub fn published_is_read()
    ensures { (at : PlacedTlv) (time : ℕ) (hash : List ℕ) → time < 2 ^ 63 → IsImprint hash →
        at.element.body ≡ texts (published_elements time hash) →
        (inner_verdict published_table at ≡ Ok tt) × (published_in at ≡ (time, hash)) }
{
    written_is_read();
    numeral_is_read();
}

/// A record of published data that is written is accepted and read again, and is short.
pub fn record_is_read()
    ensures read { (at : PlacedTlv) (time : ℕ) (hash : List ℕ) → time < 2 ^ 63 → IsImprint hash →
        at.element.body ≡ texts (record_elements time hash) →
        (inner_verdict record_table at ≡ Ok tt) × (recorded_in at ≡ (time, hash)) }
    ensures short { (time : ℕ) (hash : List ℕ) → IsImprint hash → length (texts (record_elements time hash)) ≤ 53 }
{
    written_is_read();
    numeral_is_read();
}
