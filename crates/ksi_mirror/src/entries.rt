//! Roots and sealed lists as entries: a root stands under its second, a list under its second and its core.
ghost use Rattle.std.specs.Prelude.{◌≡◌, ◌↔◌, ◌++◌, ◌∷◌, [], IfOk, OnOk, IsTrue, MatchOption};
ghost use Rattle.ksi_mirror.specs.Mirrors.{rank_at};
ghost use Rattle.ksi_mirror.specs.Merging.{FirstDifferAt};

use crate::sealed_list::SealedList;
use crate::uniting::Keyed;
use ksi_aggtree::{Item, Items, Name};
use ksi_imprint::{Imprint, NoMemory};
use std::alloc::Global;

impl Keyed for (u64, Imprint) {
    ghost key = { λ one. one.0 };

    fn is_before(&self, other: &Self) -> bool {
        self.0 < other.0
    }

    fn is_same(&self, other: &Self) -> bool {
        self.0 == other.0 && self.1 == other.1
    }

    fn copy(&self, _: Global) -> Result<Self, NoMemory> {
        Ok(*self)
    }
}

impl Keyed for SealedList {
    ghost use Rattle.ksi_mirror.specs.Mirrors.{rank};

    ghost key = { rank };

    fn is_before(&self, other: &Self) -> bool {
        self.rank() < other.rank()
    }

    fn is_same(&self, other: &Self) -> bool {
        self.second == other.second
            && self.core == other.core
            && first_difference(self.items.as_slice(), other.items.as_slice()).is_none()
    }

    fn copy(&self, alloc: Global) -> Result<Self, NoMemory> {
        let items = copy_of(alloc, self.items.as_slice())?;
        Ok(SealedList {
            second: self.second,
            core: self.core,
            items,
        })
    }
}

impl SealedList {
    ghost use Rattle.std.specs.Prelude.{◌≡◌};
    ghost use Rattle.ksi_mirror.specs.Mirrors.{rank};

    /// Where it stands among others: by its second first, and then by its core.
    fn rank(&self) -> u128
        ensures { result ≡ rank self.now }
    {
        rank_at(self.second, self.core)
    }
}

fn rank_at(second: u64, core: u8) -> u128
    ensures { result ≡ rank_at second core }
{
    16 * u128::from(second) + u128::from(core)
}

pub(crate) fn copy_of(alloc: Global, items: &[Item]) -> Result<Items, NoMemory>
    ensures { IfOk result (λ copy. copy ≡ items.now) }
{
    match items {
        [one] => Ok(Items::one(*one)),
        many => Ok(Items::from_vec(many.to_vec(alloc)?)),
    }
}

/// One item more.
pub(crate) fn push_item(items: &mut Vec<Item>, item: Item) -> Result<(), NoMemory>
    ensures { OnOk result (items.new.items ≡ items.old.items ++ item ∷ []) }
{
    items.extend_from_slice(&[item])
}

/// The place at which two lists of items differ first, none where they are the same.
pub(crate) fn first_difference(one: &[Item], two: &[Item]) -> Option<usize>
    ensures { MatchOption result (one.now ≡ two.now) (FirstDifferAt one.now two.now) }
{
    let both = one.len().min(two.len());
    'comparing: for place in 0..both {
        if !is_same_item(&one[place], &two[place]) {
            return Some(place);
        }
    }
    if one.len() == two.len() {
        None
    } else {
        Some(both)
    }
}

fn is_same_item(one: &Item, two: &Item) -> bool
    ensures { IsTrue result ↔ (one.now ≡ two.now) }
{
    one.imprint == two.imprint && one.level == two.level && is_same_name(&one.name, &two.name)
}

fn is_same_name(one: &Option<Name>, two: &Option<Name>) -> bool
    ensures { IsTrue result ↔ (one.now ≡ two.now) }
{
    match one {
        None => two.is_none(),
        Some(name) => match two {
            None => false,
            Some(other) => name.as_bytes() == other.as_bytes(),
        },
    }
}
