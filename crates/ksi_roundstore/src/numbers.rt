// Numbers at the start of bytes, most significant byte first.
ghost use Rattle.std.specs.Int.{w32, w64, from_be_bytes, to_be_bytes};
ghost use Rattle.std.specs.Prelude.{◌≡◌, ◌≤◌, length, take};

/// The number in the first eight bytes.
pub(crate) fn number8(bytes: &[u8]) -> u64
    requires { 8 ≤ length bytes.now }
    ensures number { result ≡ from_be_bytes w64 (take 8 bytes.now) }
    ensures text { to_be_bytes w64 result ≡ take 8 bytes.now }
{
    let (front, _) = bytes.split_at(8);
    let mut eight = [0; 8];
    eight.copy_from_slice(front);
    u64::from_be_bytes(eight)
}

/// The number in the first four bytes.
pub(crate) fn number4(bytes: &[u8]) -> u32
    requires { 4 ≤ length bytes.now }
    ensures number { result ≡ from_be_bytes w32 (take 4 bytes.now) }
    ensures text { to_be_bytes w32 result ≡ take 4 bytes.now }
{
    let (front, _) = bytes.split_at(4);
    let mut four = [0; 4];
    four.copy_from_slice(front);
    u32::from_be_bytes(four)
}
