ghost use Rattle.std.specs.Prelude.{◌≡◌, ◌≤◌, ◌↔◌, length, IfOk, IfErr, IsOk};
ghost use Rattle.ksi_tlv.specs.Numerals.{number_of};

/// Why bytes are no number.
#[derive(Clone, Copy, Debug, PartialEq, Eq)]
pub enum NumberFault {
    /// There are this many bytes, above 8.
    Long(usize),
}

/// The number that bytes are, the most significant first. No bytes are zero, and zeros may lead.
pub fn number(bytes: &[u8]) -> Result<u64, NumberFault>
    ensures value { IfOk result (λ n. n ≡ number_of bytes.now) }
    ensures ok { IsOk result ↔ (length bytes.now ≤ 8) }
    ensures long { IfErr result (λ fault. fault ≡ NumberFault.Long (length bytes.now)) }
{
    if bytes.len() > 8 {
        return Err(NumberFault::Long(bytes.len()));
    }
    let mut value = 0;
    for byte in bytes {
        value = 0x100 * value + u64::from(*byte);
    }
    Ok(value)
}
