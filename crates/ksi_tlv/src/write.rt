ghost use Rattle.std.specs.Prelude.{false, ◌≡◌, ◌↔◌, ◌<◌, ◌++◌, ◌∷◌, [], List, ℕ, length, OnOk, OnErr, Err, ◌+◌, ◌≤◌, if◌then◌else◌};
ghost use Rattle.ksi_tlv.specs.Spelling.{element_of, plain, Spells, canonical};
ghost use Rattle.ksi_tlv.specs.Numerals.{numeral, without_zeros};

use ksi_imprint::{NoMemory, Refused};
use std::alloc::Global;
use std::marker::Model;

/// The longest body.
const LIMIT: usize = 65_535;

/// Why an element was not written.
#[derive(Clone, Copy, Debug, PartialEq, Eq)]
pub enum PutRefusal {
    /// The body has this many bytes, above 65,535.
    TooLong(usize),
}

/// Elements as bytes, one behind the other. A contract sees the bytes.
#[derive(Drop)]
pub struct Writer {
    bytes: Vec<u8>,
}

impl Model for Writer {
    ghost Value = { List ℕ };

    ghost view = { λ writer. writer.bytes.items };
}

impl Writer {
    ghost use Rattle.ksi_imprint.specs.declared.refused.Refused.TheVariants.{Fault};
    ghost use Rattle.ksi_tlv.specs.declared.write.PutRefusal.TheVariants.{TooLong};

    /// A writer of nothing yet.
    pub fn new(alloc: Global) -> Self
        ensures { result ≡ [] }
    {
        Writer {
            bytes: Vec::new(alloc),
        }
    }

    /// A writer behind bytes that are there, which are not copied.
    pub fn behind(bytes: Vec<u8>) -> Self
        ensures { result ≡ bytes.items }
    {
        Writer { bytes }
    }

    /// What was written.
    pub fn bytes(&self) -> &[u8]
        ensures { result.now ≡ self.now }
    {
        self.bytes.as_slice()
    }

    /// What was written, without a copy.
    pub fn into_vec(self) -> Vec<u8>
        ensures { result.items ≡ self }
    {
        let Writer { bytes } = self;
        bytes
    }

    /// Writes an element behind what is there, in the short form where it can hold the element.
    pub fn put(
        &mut self,
        kind: u16,
        non_critical: bool,
        forward: bool,
        body: &[u8],
    ) -> Result<(), Refused<PutRefusal>>
        requires { kind ≤ 0x1fff }
        ensures ok { OnOk result (self.new ≡ self.old ++ canonical (element_of kind non_critical forward body.now)) }
        ensures spelled { OnOk result ((text : List ℕ) × (self.new ≡ self.old ++ text)
            × Spells (element_of kind non_critical forward body.now) text) }
        ensures too_long { (n : ℕ) → (result ≡ Err (Fault (TooLong n))) ↔ ((n ≡ length body.now) × (65535 < n)) }
        ensures err { OnErr result (self.new ≡ self.old) }
    {
        let size = body.len();
        if size > LIMIT {
            return Err(Refused::Fault(PutRefusal::TooLong(size)));
        }
        self.append(kind, non_critical, forward, body)?;
        Ok(())
    }

    /// Writes a number in the fewest bytes behind what is there, zero as no bytes.
    #[tactic(auto, unfolding(crate::specs::Numerals::numeral))]
    pub fn put_number(&mut self, kind: u16, n: u64) -> Result<(), NoMemory>
        requires { kind ≤ 0x1fff }
        ensures ok { OnOk result (self.new ≡ self.old ++ canonical (plain kind (numeral n))) }
        ensures err { OnErr result (self.new ≡ self.old) }
    {
        let bytes = n.to_be_bytes();
        self.append(kind, false, false, significant(&bytes))
    }

    fn append(
        &mut self,
        kind: u16,
        non_critical: bool,
        forward: bool,
        body: &[u8],
    ) -> Result<(), NoMemory>
        requires kind { kind ≤ 0x1fff }
        requires body { length body.now ≤ 65535 }
        ensures ok { OnOk result (self.new ≡ self.old ++ canonical (element_of kind non_critical forward body.now)) }
        ensures err { OnErr result (self.new ≡ self.old) }
    {
        let size = body.len();
        let flags = flags(non_critical, forward);
        if kind <= 0x1f && size <= 0xff {
            append_both(&mut self.bytes, &[flags + kind as u8, size as u8], body)
        } else {
            let header = [
                0x80 + flags + (kind / 0x100) as u8,
                (kind % 0x100) as u8,
                (size / 0x100) as u8,
                (size % 0x100) as u8,
            ];
            append_both(&mut self.bytes, &header, body)
        }
    }
}

/// The flags of a first byte.
fn flags(non_critical: bool, forward: bool) -> u8
    ensures value { result ≡ (if non_critical then 64 else 0) + (if forward then 32 else 0) }
    ensures small { result ≤ 96 }
{
    let first = if non_critical { 0x40 } else { 0 };
    let second = if forward { 0x20 } else { 0 };
    first + second
}

/// Appends both parts or neither.
fn append_both(out: &mut Vec<u8>, header: &[u8], body: &[u8]) -> Result<(), NoMemory>
    ensures ok { OnOk result (out.new.items ≡ out.old.items ++ (header.now ++ body.now)) }
    ensures err { OnErr result (out.new.items ≡ out.old.items) }
{
    let start = out.len();
    out.extend_from_slice(header)?;
    if let Err(refusal) = out.extend_from_slice(body) {
        out.truncate(start);
        return Err(refusal);
    }
    Ok(())
}

/// The bytes from the first that is not zero on.
fn significant(bytes: &[u8]) -> &[u8]
    ensures exact { result.now ≡ without_zeros bytes.now }
    ensures short { length result.now ≤ length bytes.now }
{
    let mut rest = bytes;
    while let [0, others @ ..] = rest {
        rest = others;
    }
    rest
}
