ghost use Rattle.std.specs.Prelude.{◌≡◌, option_map};
ghost use Rattle.ksi_corenode.specs.Facts.{fact_of};

use ksi_aggtree::Entry;
use ksi_imprint::Imprint;
use ksi_synod::Vote;
use std::marker::Model;

/// The items that a core sealed for a second, in order, and where each came from. A contract sees their list.
#[derive(Drop)]
pub struct SealedItems {
    entries: Vec<Entry>,
}

impl Model for SealedItems {
    ghost use Rattle.std.specs.Prelude.{List};
    ghost use Rattle.ksi_aggtree.specs.declared.entries.Entry as entry;

    ghost Value = { List entry.Entry };

    ghost view = { λ items. items.entries.items };
}

impl SealedItems {
    /// The items of a `Vec`, which is not copied.
    pub fn from_vec(entries: Vec<Entry>) -> Self
        ensures { result ≡ entries.items }
    {
        SealedItems { entries }
    }

    /// The items, which are not copied.
    pub fn as_slice(&self) -> &[Entry]
        ensures { result.now ≡ self.now }
    {
        &self.entries
    }
}

/// What a core stores of a second for good.
#[derive(Drop)]
pub enum What {
    /// It sealed these items.
    Sealed(SealedItems),
    /// It tried this ballot.
    Tried(u64),
    /// It promised this ballot.
    Promised(u64),
    /// It cast this vote.
    Cast(Vote),
    /// It holds this root.
    Holds(Imprint),
}

/// What a core stores for good, and for which second.
#[derive(Drop)]
pub struct Fact {
    pub second: u64,
    pub what: What,
}

/// The fact of a second, where something is stored.
pub(crate) fn fact_of(second: u64, what: Option<What>) -> Option<Fact>
    ensures { result ≡ option_map (fact_of second) what }
{
    match what {
        Some(what) => Some(Fact { second, what }),
        None => None,
    }
}
