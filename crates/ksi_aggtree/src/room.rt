ghost use Rattle.std.specs.Prelude.{◌≡◌, ◌<◌, vec_len, vec_capacity, OnOk};

use ksi_imprint::NoMemory;

/// Makes room for one more, and for no other where it is the first: most rounds of a small history have one item.
pub(crate) fn reserve_one<T>(vec: &mut Vec<T>) -> Result<(), NoMemory>
    ensures items { vec.new.items ≡ vec.old.items }
    ensures room { OnOk result (vec_len vec.new < vec_capacity vec.new) }
{
    if vec.is_empty() {
        vec.reserve_exact(1)
    } else {
        vec.reserve(1)
    }
}
