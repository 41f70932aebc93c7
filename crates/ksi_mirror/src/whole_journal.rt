//! The journal of a mirror's roots.
ghost use Rattle.std.specs.Prelude.{◌≡◌, ◌≤◌, ◌++◌, ◌∷◌, [], ℕ, None, Some, Ok, Err, IfOk, OnOk, map};
ghost use Rattle.std.specs.Option.{option_copied};
ghost use Rattle.std.specs.List.{AllByRecursion};
ghost use Rattle.ksi_imprint.specs.Refused.{OrNoMemory, IfRefused};
ghost use Rattle.std.specs.Str.{bytes_eq};
ghost use Rattle.ksi_aggtree.specs.Rounds.{tree_of};
ghost use Rattle.ksi_journal.specs.Journal.{RiseFrom};
ghost use Rattle.ksi_mirror.specs.Mirrors.{rank, rank_at, list_among, IsList};
ghost use Rattle.ksi_mirror.specs.Whole.{whole_of, seconds_for, second_from, kept_with, first_tree};

use crate::entries::copy_of;
use crate::laws::mirror_is_kept;
use crate::mirror::Mirror;
use crate::refusal::WholeRefusal;
use crate::sealed_list::SealedList;
use ksi_aggtree::{Item, Items, Second, Tree};
use ksi_imprint::{Compress, Imprint, NoMemory, Refused};
use ksi_journal::{Journal, Parts};
use std::alloc::Global;

/// The journal of a mirror: its roots, each with the list of the lowest core whose tree has the root, none for the zero
/// imprint; without voters, issued signatures and publications. Each tree is computed from its list. Of merged mirrors of
/// one history it is the journal of the seconds that are kept (law `mirrors_of_a_history_merge` of `ksi_replay`).
///
/// # Errors
/// `NoTree` exactly at the first root other than zero without such a list. `NoMemory`.
#[tactic(auto, unfolding(crate::specs::Whole::whole_of))]
pub fn whole<C: Compress>(
    alloc: Global,
    mirror: &Mirror,
) -> Result<Journal<C>, Refused<WholeRefusal>>
    ensures { OrNoMemory (whole_of C.image mirror.now) result }
{
    mirror_is_kept(mirror);
    let seconds = match seconds::<C>(alloc, mirror) {
        Ok(seconds) => seconds,
        Err(refused) => return Err(refused),
    };
    let parts = Parts {
        start: mirror.start(),
        voters: Vec::new(alloc),
        seconds,
        issued: Vec::new(alloc),
        publications: Vec::new(alloc),
    };
    match Journal::new(alloc, parts) {
        Ok(journal) => Ok(journal),
        Err(NoMemory) => Err(Refused::NoMemory),
    }
}

/// The roots with their items, in order.
fn seconds<C: Compress>(
    alloc: Global,
    mirror: &Mirror,
) -> Result<Vec<Second>, Refused<WholeRefusal>>
    ensures seconds { IfOk result (λ seconds. seconds_for C.image mirror.now mirror.now.roots ≡ Ok seconds.items) }
    ensures refused { IfRefused result (λ refusal. seconds_for C.image mirror.now mirror.now.roots ≡ Err refusal) (Unit {0}) }
{
    let mut seconds = Vec::new(alloc);
    let mut lists = mirror.lists();
    let roots = mirror.roots();
    'journaling: for root in roots {
        lists = lists_from(lists, root.0);
        let Some(kept) = second::<C>(alloc, lists, root)? else {
            return Err(Refused::Fault(WholeRefusal::NoTree(root.0)));
        };
        put(&mut seconds, kept)?;
    }
    Ok(seconds)
}

/// One second more.
fn put(seconds: &mut Vec<Second>, kept: Second) -> Result<(), NoMemory>
    ensures { OnOk result (seconds.new.items ≡ seconds.old.items ++ kept ∷ []) }
{
    seconds.push(kept)?;
    Ok(())
}

/// The lists of a second and of those behind it.
fn lists_from(lists: &[SealedList], second: u64) -> &[SealedList]
    requires lists { AllByRecursion IsList lists.now }
    requires rise { RiseFrom 0 (map rank lists.now) }
    ensures same { (t j : ℕ) → second ≤ t → list_among result.now t j ≡ list_among lists.now t j }
    ensures lists { AllByRecursion IsList result.now }
    ensures rise { RiseFrom (rank_at second 0) (map rank result.now) }
{
    let mut rest = lists;
    'skipping: while let Some((one, others)) = rest.split_first() {
        if second <= one.second {
            return rest;
        }
        rest = others;
    }
    rest
}

/// A root with its items, where these lists are of its second or behind it; none where it has no tree.
fn second<C: Compress>(
    alloc: Global,
    lists: &[SealedList],
    root: &(u64, Imprint),
) -> Result<Option<Second>, NoMemory>
    requires lists { AllByRecursion IsList lists.now }
    requires rise { RiseFrom (rank_at root.now.0 0) (map rank lists.now) }
    ensures { IfOk result (λ found. found ≡ second_from C.image (list_among lists.now root.now.0) root.now) }
{
    if root.1.is_zero() {
        let none = Items::from_vec(Vec::new(alloc));
        return Ok(Some(kept_with(root, none)));
    }
    match tree_list::<C>(lists, root.0, &root.1) {
        None => Ok(None),
        Some(items) => {
            let items = copy_of(alloc, items)?;
            Ok(Some(kept_with(root, items)))
        }
    }
}

fn kept_with(root: &(u64, Imprint), items: Items) -> Second
    ensures { result ≡ kept_with root.now.0 root.now.1 items }
{
    Second {
        second: root.0,
        root: root.1,
        items,
    }
}

/// The items of the first list of a second whose tree has the root. None of the lists is of an earlier second.
fn tree_list<'a, C: Compress>(
    lists: &'a [SealedList],
    second: u64,
    root: &Imprint,
) -> Option<&'a [Item]>
    requires lists { AllByRecursion IsList lists.now }
    ensures { option_copied result ≡ first_tree C.image second root.now lists.now }
{
    'trying: for one in lists {
        if one.second != second {
            return None;
        }
        if is_root_of::<C>(root, one) {
            return Some(one.items.as_slice());
        }
    }
    None
}

/// Whether the root is the imprint of a list's tree.
fn is_root_of<C: Compress>(root: &Imprint, one: &SealedList) -> bool
    requires { IsList one.now }
    ensures { result ≡ bytes_eq (tree_of C.image one.now.items).imprint root.now }
{
    match Tree::<C>::over(one.items.as_slice()) {
        Some(tree) => tree.root().imprint.bytes().as_slice() == root.bytes().as_slice(),
        None => unreachable!(),
    }
}
