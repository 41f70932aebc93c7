//! Arrays of which only the first items count, a given number.

ghost use Rattle.std.specs.Prelude.{◌≡◌, ◌<◌, ◌≤◌, ◌+◌, ◌++◌, ◌∷◌, [], length, take, insert};

/// Puts an item after the first items, this many.
pub(crate) fn append_at<T: Copy>(items: &mut [T], count: usize, item: T)
    requires { count < length items.old }
    ensures { take (count + 1) items.new ≡ take count items.old ++ item ∷ [] }
{
    items[count] = item;
}

/// Puts an item at a place among the first items, this many; the later ones move up.
pub(crate) fn insert_at<T: Copy>(items: &mut [T], count: usize, place: usize, item: T)
    requires room { count < length items.old }
    requires within { place ≤ count }
    ensures { take (count + 1) items.new ≡ insert (take count items.old) place item }
{
    let mut carried = item;
    for k in place..count {
        let next = items[k];
        items[k] = carried;
        carried = next;
    }
    items[count] = carried;
}
