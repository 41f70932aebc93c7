// The last line of a record.
ghost use Rattle.std.specs.Prelude.{◌≡◌, ◌∷◌, ◌++◌, [], ℕ, List};
ghost use Rattle.ksi_roundstore.specs.Written.{IsLine};
ghost use Rattle.ksi_roundstore.specs.Kinds.{IsEnded};

use memchr::memrchr;

/// The last line of lines, with its line feed.
pub(crate) fn last_line(content: &[u8]) -> &[u8]
    ensures { (front line : List ℕ) → content.now ≡ front ++ (line ++ 10 ∷ []) → IsEnded front → IsLine line → result.now ≡ line ++ 10 ∷ [] }
{
    match content.split_last() {
        None => content,
        Some((_, body)) => behind_feed(content, body),
    }
}

/// The part after the last line feed of a part in front.
fn behind_feed<'t>(content: &'t [u8], body: &[u8]) -> &'t [u8]
    requires { (last : ℕ) × (content.now ≡ body.now ++ last ∷ []) }
    ensures { (front line : List ℕ) → content.now ≡ front ++ (line ++ 10 ∷ []) → IsEnded front → IsLine line → result.now ≡ line ++ 10 ∷ [] }
{
    match memrchr(b'\n', body) {
        None => content,
        Some(place) => {
            let (_, tail) = content.split_at(place + 1);
            tail
        }
    }
}

/// A line without its line feed.
pub(crate) fn without_feed(tail: &[u8]) -> &[u8]
    ensures { (line : List ℕ) → tail.now ≡ line ++ 10 ∷ [] → result.now ≡ line }
{
    match tail.split_last() {
        None => tail,
        Some((_, line)) => line,
    }
}
