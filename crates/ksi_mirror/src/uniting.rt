//! Two lists of entries, each in order of its keys, as one: in one pass over both.
ghost use Rattle.std.specs.Prelude.{◌≡◌, ◌↔◌, ◌<◌, ◌++◌, ◌∷◌, [], ℕ, IfOk, OnOk, IsTrue, map};
ghost use Rattle.ksi_imprint.specs.Refused.{IfRefused};
ghost use Rattle.ksi_journal.specs.Journal.{RiseFrom};
ghost use Rattle.ksi_mirror.specs.Keys.{DifferFirst, SaysLeast, IsUnited};

use ksi_imprint::{NoMemory, Refused};
use std::alloc::Global;

/// What stands in a mirror under a key.
pub(crate) trait Keyed: Drop {
    ghost key: { Self → ℕ };

    /// Whether its key is below the other's.
    fn is_before(&self, other: &Self) -> bool
        ensures { IsTrue result ↔ (key self.now < key other.now) };

    fn is_same(&self, other: &Self) -> bool
        ensures { IsTrue result ↔ (self.now ≡ other.now) };

    fn copy(&self, alloc: Global) -> Result<Self, NoMemory>
        ensures { IfOk result (λ copy. copy ≡ self.now) };
}

/// The entries of both lists, each key once, or the first two that differ under one key.
pub(crate) fn united<'a, E: Keyed>(
    alloc: Global,
    one: &'a [E],
    two: &'a [E],
) -> Result<Vec<E>, Refused<(&'a E, &'a E)>>
    requires one { RiseFrom 0 (map E.key one.now) }
    requires two { RiseFrom 0 (map E.key two.now) }
    ensures united { IfOk result (λ merged. IsUnited E.key one.now two.now merged.items) }
    ensures refused { IfRefused result (λ both. DifferFirst E.key one.now two.now both.0.now both.1.now) (Unit {0}) }
{
    let mut merged = Vec::new(alloc);
    let mut left = one;
    let mut right = two;
    'merging: while let Some(next) = least(left, right) {
        match next {
            Ok((entry, others, further)) => {
                push_copy(alloc, &mut merged, entry)?;
                left = others;
                right = further;
            }
            Err(both) => return Err(Refused::Fault(both)),
        }
    }
    Ok(merged)
}

/// One entry more, copied.
fn push_copy<E: Keyed>(alloc: Global, merged: &mut Vec<E>, entry: &E) -> Result<(), NoMemory>
    ensures { OnOk result (merged.new.items ≡ merged.old.items ++ entry.now ∷ []) }
{
    let copy = entry.copy(alloc)?;
    merged.push(copy)?;
    Ok(())
}

/// The least entry of both, and what is then left of each; or two that differ under the least key; none where nothing is
/// left.
fn least<'a, E: Keyed>(
    left: &'a [E],
    right: &'a [E],
) -> Option<Result<(&'a E, &'a [E], &'a [E]), (&'a E, &'a E)>>
    requires left { RiseFrom 0 (map E.key left.now) }
    requires right { RiseFrom 0 (map E.key right.now) }
    ensures { SaysLeast E.key left.now right.now result }
{
    let Some((one, others)) = left.split_first() else {
        return first_of(left, right);
    };
    let Some((two, further)) = right.split_first() else {
        return Some(Ok((one, others, right)));
    };
    if one.is_before(two) {
        Some(Ok((one, others, right)))
    } else if two.is_before(one) {
        Some(Ok((two, left, further)))
    } else if one.is_same(two) {
        Some(Ok((one, others, further)))
    } else {
        Some(Err((one, two)))
    }
}

/// The first entry of the second list, where there is nothing in the first.
fn first_of<'a, E: Keyed>(
    left: &'a [E],
    right: &'a [E],
) -> Option<Result<(&'a E, &'a [E], &'a [E]), (&'a E, &'a E)>>
    requires none { left.now ≡ [] }
    requires right { RiseFrom 0 (map E.key right.now) }
    ensures { SaysLeast E.key left.now right.now result }
{
    match right.split_first() {
        None => None,
        Some((two, further)) => Some(Ok((two, left, further))),
    }
}
