//! The tree of lent items, kept again.
ghost use Rattle.std.specs.Prelude.{◌≡◌, ◌<◌, ◌≤◌, ◌++◌, ◌∷◌, [], ℕ, length, IfOk, OnOk};
ghost use Rattle.ksi_aggtree.specs.Rounds.{most_items, highest_item, leaf_level, item_at};

use crate::builder::{AddRefusal, Builder};
use crate::item::Item;
use crate::over::item_or;
use ksi_imprint::{Compress, NoMemory, Refused};
use std::alloc::Global;

/// The round of items and a last one behind them, together at most 65,536, whose leaves have levels to 239.
///
/// # Errors
/// `NoMemory`: no round is made.
pub(crate) fn rebuilt<C: Compress>(
    alloc: Global,
    items: &[Item],
    last: &Item,
) -> Result<Builder<C>, NoMemory>
    requires few { length items.now < most_items }
    requires low { (k : ℕ) → leaf_level (item_at items.now k) ≤ highest_item }
    requires last { leaf_level last.now ≤ highest_item }
    ensures { IfOk result (λ round. round ≡ items.now ++ last.now ∷ []) }
{
    let mut round = Builder::new(alloc)?;
    'adding: for k in 0..items.len() + 1 {
        let item = item_or(items, last, k);
        add(&mut round, &item)?;
    }
    Ok(round)
}

/// Adds an item, where the round is not full.
fn add<C: Compress>(round: &mut Builder<C>, item: &Item) -> Result<(), NoMemory>
    requires level { leaf_level item.now ≤ highest_item }
    requires few { length round.old < most_items }
    ensures { OnOk result (round.new ≡ round.old ++ item.now ∷ []) }
{
    match round.add(*item) {
        Ok(_) => Ok(()),
        Err(Refused::NoMemory) => Err(NoMemory),
        Err(Refused::Fault(AddRefusal::Full)) => unreachable!(),
    }
}
