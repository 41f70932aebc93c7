ghost use Rattle.std.specs.Prelude.{◌≡◌};

use ksi_aggtree::Entry;
use ksi_signature::Above;
use std::marker::Model;

/// The items that an aggregator closed a round with, in order, and where each came from. A contract sees their list.
#[derive(Drop)]
pub struct ClosedItems {
    entries: Vec<Entry>,
}

impl Model for ClosedItems {
    ghost use Rattle.std.specs.Prelude.{List};
    ghost use Rattle.ksi_aggtree.specs.declared.entries.Entry as entry;

    ghost Value = { List entry.Entry };

    ghost view = { λ items. items.entries.items };
}

impl ClosedItems {
    /// The items of a `Vec`, which is not copied.
    pub fn from_vec(entries: Vec<Entry>) -> Self
        ensures { result ≡ entries.items }
    {
        ClosedItems { entries }
    }

    /// The items, which are not copied.
    pub fn as_slice(&self) -> &[Entry]
        ensures { result.now ≡ self.now }
    {
        &self.entries
    }
}

/// What an aggregator stores of the round of a second for good.
#[derive(Drop)]
pub enum RoundFact {
    /// It closed the round with these items.
    Closed(ClosedItems),
    /// It keeps this response to the round.
    Answered(Above),
}

/// What an aggregator stores for good, and for which second.
#[derive(Drop)]
pub struct Fact {
    pub second: u64,
    pub what: RoundFact,
}
