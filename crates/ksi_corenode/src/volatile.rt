ghost use Rattle.std.specs.Prelude.{◌≡◌, length, ◌≤◌, ◌++◌, ◌∷◌, [], IsTrue, IfOk, OnErr, unwrap_or, option_map};
ghost use Rattle.ksi_aggtree.specs.Rounds.{IsRound, leaf_level, highest_item};
ghost use Rattle.ksi_aggtree.specs.Entries.{items_of, candidate_of};
ghost use Rattle.ksi_corenode.specs.Rows.{taken};
ghost use Rattle.ksi_corenode.specs.Stored.{fresh_volatile};

use ksi_aggtree::{AddRefusal, Entries, Entry, Item, Origin};
use ksi_imprint::{Compress, Imprint, NoMemory, Refused};
use ksi_signature::Answer;
use ksi_synod::InHand;
use std::alloc::Global;
use std::marker::Model;

/// The volatile part of a second, which a restart forgets: the ballot in hand, and the tree of the open items, once there
/// are any.
#[derive(Drop)]
pub(crate) struct VolatilePart<C: Compress> {
    hand: Option<InHand>,
    tree: Option<Box<Entries<C>>>,
}

impl<C: Compress> Model for VolatilePart<C> {
    ghost use Rattle.std.specs.Prelude.{[], option_map, unwrap_or};
    ghost use Rattle.ksi_aggtree.specs.Rounds.{IsRound};
    ghost use Rattle.ksi_aggtree.specs.Entries.{items_of};
    ghost use Rattle.ksi_corenode.specs.Stored.{VolatileState};

    ghost Value = { VolatileState };

    ghost view = { λ v. record { hand = v.hand; open_items = unwrap_or (option_map (λ tree. tree.value) v.tree) [] } };

    ghost invariant = { λ v. IsRound (items_of (unwrap_or (option_map (λ tree. tree.value) v.tree) [])) };
}

impl<C: Compress> VolatilePart<C> {
    /// The part before anything came.
    pub fn new() -> Self
        ensures { result ≡ fresh_volatile }
    {
        VolatilePart {
            hand: None,
            tree: None,
        }
    }

    /// Whether there is neither a ballot in hand nor a tree of open items.
    pub fn is_idle(&self) -> bool
        ensures { IsTrue result → self.now ≡ fresh_volatile }
    {
        self.hand.is_none() && self.tree.is_none()
    }

    /// The ballot in hand.
    pub fn hand(&self) -> Option<InHand>
        ensures { result ≡ self.now.hand }
    {
        self.hand
    }

    /// How many open items there are.
    pub fn count(&self) -> usize
        ensures { result ≡ length self.now.open_items }
    {
        match &self.tree {
            Some(tree) => tree.count(),
            None => 0,
        }
    }

    /// A copy of the open items in order, which make a round.
    ///
    /// # Errors
    /// `NoMemory`: no copy is made.
    pub fn items(&self, alloc: Global) -> Result<Vec<Entry>, NoMemory>
        ensures items { IfOk result (λ items. items.items ≡ self.now.open_items) }
        ensures round { IsRound (items_of self.now.open_items) }
    {
        match &self.tree {
            Some(tree) => tree.to_vec(),
            None => Ok(Vec::new(alloc)),
        }
    }

    /// The imprint of the open items' tree, or the zero imprint if there are none.
    pub fn candidate(&self) -> Imprint
        ensures { result ≡ candidate_of C.image self.now.open_items }
    {
        match &self.tree {
            Some(tree) => tree.candidate(),
            None => Imprint::ZERO,
        }
    }

    /// Takes another ballot in hand, or none.
    pub fn take_in_hand(&mut self, hand: Option<InHand>)
        ensures { self.new ≡ record self.old { hand = hand } }
    {
        self.hand = hand;
    }

    /// Takes an item of an aggregator among the open ones.
    ///
    /// # Errors
    /// `NoMemory`: all is as it was.
    pub fn submission(
        &mut self,
        alloc: Global,
        aggregator: u32,
        item: &Item,
    ) -> Result<Answer, NoMemory>
        requires { leaf_level item.now ≤ highest_item }
        ensures after { IfOk result (λ answer. self.new ≡ record self.old { open_items = (taken aggregator item.now self.old.open_items).0 }) }
        ensures answer { IfOk result (λ answer. answer ≡ (taken aggregator item.now self.old.open_items).1) }
        ensures unchanged { OnErr result (self.new ≡ self.old) }
    {
        match &mut self.tree {
            Some(tree) => take(tree, aggregator, item),
            None => {
                let mut tree = Box::new(alloc, Entries::new(alloc)?)?;
                let answer = take(&mut tree, aggregator, item)?;
                self.tree = Some(tree);
                Ok(answer)
            }
        }
    }

    /// Leaves no item open.
    pub fn clear(&mut self)
        ensures { self.new ≡ record self.old { open_items = [] } }
    {
        self.tree = None;
    }
}

/// Takes an item of an aggregator into the tree of the open ones.
fn take<C: Compress>(
    tree: &mut Entries<C>,
    aggregator: u32,
    item: &Item,
) -> Result<Answer, NoMemory>
    requires level { leaf_level item.now ≤ highest_item }
    requires round { IsRound (items_of tree.old) }
    ensures taken { IfOk result (λ answer. (tree.new, answer) ≡ taken aggregator item.now tree.old) }
    ensures unchanged { OnErr result (tree.new ≡ tree.old) }
    ensures round { IsRound (items_of tree.new) }
{
    if tree.has_from(aggregator) {
        return Ok(Answer::Known);
    }
    let entry = Entry {
        origin: Origin::Aggregator(aggregator),
        item: *item,
    };
    match tree.add(entry) {
        Ok(_) => Ok(Answer::Done),
        Err(Refused::Fault(AddRefusal::Full)) => Ok(Answer::Full),
        Err(Refused::NoMemory) => Err(NoMemory),
    }
}
