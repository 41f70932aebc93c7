//! The aggregators that the items of a round came from, each once.
ghost use Rattle.std.specs.Prelude.{◌≡◌, ◌<◌, ◌||◌, ℕ, nat_eq, OnOk};
ghost use Rattle.std.specs.HashSet.{contains, spare};
ghost use Rattle.ksi_aggtree.specs.Entries.{is_from};

use crate::entries::Origin;
use ksi_imprint::NoMemory;
use std::collections::HashSet;

/// Makes room for where one more item came from, which changes none that are there. A request takes no room.
pub(crate) fn make_room(senders: &mut HashSet<u32>, origin: &Origin) -> Result<(), NoMemory>
    ensures same { (q : ℕ) → contains nat_eq senders.new q ≡ contains nat_eq senders.old q }
    ensures room { OnOk result ((q : ℕ) → origin.now ≡ Origin.Aggregator q → 0 < spare senders.new) }
{
    match origin {
        Origin::Request(_) => Ok(()),
        Origin::Aggregator(_) => {
            senders.reserve(1)?;
            Ok(())
        }
    }
}

/// Notes where an item came from, where there is room for it.
pub(crate) fn note(senders: &mut HashSet<u32>, origin: Origin)
    requires { (q : ℕ) → origin ≡ Origin.Aggregator q → 0 < spare senders.old }
    ensures { (q : ℕ) → contains nat_eq senders.new q ≡ (contains nat_eq senders.old q || is_from q origin) }
{
    match origin {
        Origin::Request(_) => {}
        Origin::Aggregator(from) => match senders.insert(from) {
            Ok(_) => {}
            Err(_) => unreachable!(),
        },
    }
}
