ghost use Rattle.std.specs.Prelude.{◌≡◌, ◌∷◌, []};

use crate::item::Item;
use std::marker::Model;

/// Items in order. A contract sees their list. One item alone takes no memory of its own, since most kept seconds of a
/// small history have one.
#[derive(Drop)]
pub struct Items {
    kept: KeptItems,
}

/// One item, or any number.
#[derive(Drop)]
pub(crate) enum KeptItems {
    One([Item; 1]),
    Many(Vec<Item>),
}

impl Model for Items {
    ghost use Rattle.std.specs.Prelude.{List};
    ghost use Rattle.ksi_aggtree.specs.declared.item.Item as item;
    ghost use Rattle.ksi_aggtree.specs.Stored.{items_in};

    ghost Value = { List item.Item };

    ghost view = { λ items. items_in items.kept };
}

impl Items {
    /// One item.
    pub fn one(item: Item) -> Self
        ensures { result ≡ item ∷ [] }
    {
        Items {
            kept: KeptItems::One([item]),
        }
    }

    /// The items of a `Vec`, of which one alone is copied.
    pub fn from_vec(vec: Vec<Item>) -> Self
        ensures { result ≡ vec.items }
    {
        let kept = match vec.as_slice() {
            [one] => KeptItems::One([*one]),
            _ => KeptItems::Many(vec),
        };
        Items { kept }
    }

    /// The items, which are not copied.
    pub fn as_slice(&self) -> &[Item]
        ensures { result.now ≡ self.now }
    {
        match &self.kept {
            KeptItems::One(one) => one,
            KeptItems::Many(vec) => vec,
        }
    }
}
