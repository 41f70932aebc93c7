ghost use Rattle.std.specs.Prelude.{◌≡◌, ◌+◌, ◌^◌, ◌<◌, ◌++◌, ℕ, List, length, None, IfSome};

/// The bytes after the magic of a file, if its bytes begin with it.
pub fn after_magic<'a>(bytes: &'a [u8], magic: &[u8]) -> Option<&'a [u8]>
    ensures some { IfSome result (λ rest. bytes.now ≡ magic.now ++ rest.now) }
    ensures short { IfSome result (λ rest. length magic.now + length rest.now < 2 ^ 64) }
    ensures none { result ≡ None → (rest : List ℕ) → bytes.now ≡ magic.now ++ rest → ⊥ }
{
    bytes.strip_prefix(magic)
}
