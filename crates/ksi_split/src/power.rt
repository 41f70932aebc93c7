ghost use Rattle.std.specs.Prelude.{◌≡◌, ◌*◌, ◌<◌, ◌≤◌};
ghost use Rattle.std.specs.Int.{IsPowerOfTwo};
ghost use Rattle.ksi_split.specs.Powers.{split_of, high_bit_of};

/// The greatest power of two that is at most `n`.
pub fn high_bit(n: u64) -> u64
    requires { 0 < n }
    ensures power { IsPowerOfTwo result }
    ensures most { result ≤ n }
    ensures greatest { n < 2 * result }
    ensures value { result ≡ high_bit_of n }
{
    1 << n.ilog2()
}

/// The greatest power of two below `n`: this many of `n` leaves are in the left part.
pub fn split(n: u64) -> u64
    requires { 1 < n }
    ensures power { IsPowerOfTwo result }
    ensures below { result < n }
    ensures greatest { n ≤ 2 * result }
    ensures value { result ≡ split_of n }
{
    high_bit(n - 1)
}
