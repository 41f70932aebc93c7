ghost use Rattle.std.specs.Prelude.{◌≡◌, ◌<◌, ◌≤◌, ◌∷◌, [], length, map};
ghost use Rattle.ksi_signature.specs.Contents.{put_chain};
ghost use Rattle.ksi_signature.specs.Places.{place_of};
ghost use Rattle.ksi_signature.specs.PartsSeen.{chain_seen};

use crate::arrays::insert_at;
use crate::chain_view::ChainView;
use std::marker::Model;

/// Lent chains by falling number of index parts, those of equal number in the order in which they were put: at most 16.
/// A contract sees the list of what they show.
#[derive(Drop)]
pub(crate) struct ChainList<'a> {
    chains: [ChainView<'a>; 16],
    count: usize,
}

impl<'a> Model for ChainList<'a> {
    ghost use Rattle.std.specs.Prelude.{◌≤◌, List, map, take};
    ghost use Rattle.ksi_signature.specs.Values.{Aggregation};
    ghost use Rattle.ksi_signature.specs.PartsSeen.{chain_seen};

    ghost Value = { List Aggregation };

    ghost view = { λ list. map chain_seen (take list.count list.chains) };

    ghost invariant = { λ list. list.count ≤ 16 };
}

impl<'a> ChainList<'a> {
    /// One chain.
    pub(crate) fn of(chain: ChainView<'a>) -> Self
        ensures { result ≡ chain_seen chain.entry ∷ [] }
    {
        ChainList {
            chains: [chain; 16],
            count: 1,
        }
    }

    /// The chains in their order.
    pub(crate) fn as_slice(&self) -> &[ChainView<'a>]
        ensures { map chain_seen result.now ≡ self.now }
    {
        &self.chains[..self.count]
    }

    /// Puts a chain behind all that have as many index parts or more.
    pub(crate) fn put(&mut self, chain: ChainView<'a>)
        requires { length self.old < 16 }
        ensures { self.new ≡ put_chain (chain_seen chain.entry) self.old }
    {
        let place = place_among(self.as_slice(), chain.parts());
        let count = self.count;
        insert_at(&mut self.chains, count, place, chain);
        self.count = count + 1;
    }
}

/// The place of the first chain that has fewer index parts, or the end.
fn place_among(chains: &[ChainView<'_>], parts: usize) -> usize
    ensures value { result ≡ place_of parts (map chain_seen chains.now) }
    ensures within { result ≤ length chains.now }
{
    for (place, other) in chains.iter().enumerate() {
        if other.parts() < parts {
            return place;
        }
    }
    chains.len()
}
