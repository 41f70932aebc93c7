ghost use Rattle.std.specs.Prelude.{◌≡◌, ◌<◌, ◌≤◌, ◌^◌, ◌++◌, [], IfOk, IfSome, OnOk, length};
ghost use Rattle.std.specs.List.{AllByRecursion};
ghost use Rattle.ksi_imprint.specs.Imprints.{IsImprint};
ghost use Rattle.ksi_aggtree.specs.Names.{IsName};
ghost use Rattle.ksi_world.specs.Histories.{world_of};
ghost use Rattle.ksi_world.specs.Records.{issued_all, issued_before};
ghost use Rattle.ksi_world.specs.Validity.{HasImprints};
ghost use Rattle.ksi_journal.specs.Journal.{IsIssued};
ghost use Rattle.ksi_replay.specs.Journals.{journal_of};

use ksi_aggtree::{Item, Second};
use ksi_imprint::{Bytes, Compress, Imprint, NoMemory};
use ksi_journal::laws::are_bytes;
use ksi_journal::{Journal, Parts};
use ksi_world::{PublishedRoots, World};
use std::alloc::Global;

/// The journal of a world: who votes by its plan, the kept seconds, each with its root and items, the issued signatures,
/// and what was published. All is made anew, and the world is not changed.
///
/// # Errors
/// `NoMemory`.
#[tactic(auto, unfolding(crate::specs::Journals::journal_of))]
pub fn journal_of<C: Compress>(alloc: Global, world: &World<C>) -> Result<Journal<C>, NoMemory>
    ensures { IfOk result (λ journal. journal ≡ journal_of C.image world.now) }
{
    let voters = world.plan().core_plan().voters().to_vec(alloc)?;
    let kept = world.kept()?;
    let start = kept.start;
    let seconds = kept.seconds.into_vec();
    imprints_of(&seconds);
    let issued = issued(alloc, world)?;
    let publications = publications_of(alloc, world.published())?;
    let parts = Parts {
        start,
        voters,
        seconds,
        issued,
        publications,
    };
    Journal::new(alloc, parts)
}

/// The signatures of all requests that have one, each behind the number of its request.
fn issued<C: Compress>(alloc: Global, world: &World<C>) -> Result<Vec<(u64, Bytes)>, NoMemory>
    ensures issued { IfOk result (λ issued. issued.items ≡ issued_all C.image (world_of C.image world.now)) }
    ensures lawful { IfOk result (λ issued. AllByRecursion IsIssued issued.items) }
{
    let mut issued = Vec::new(alloc);
    'numbers: for number in 0..world.requests().len() as u64 {
        let found = world.issued(number)?;
        push_issued(&mut issued, number, found)?;
    }
    Ok(issued)
}

/// What is issued of a request, where there is something.
#[tactic(auto, using(crate::proofs::Lawful::lawful_more))]
fn push_issued(
    issued: &mut Vec<(u64, Bytes)>,
    number: u64,
    found: Option<Bytes>,
) -> Result<(), NoMemory>
    requires lawful { AllByRecursion IsIssued issued.old.items }
    requires short { IfSome found (λ bytes. length bytes ≤ 10000) }
    ensures listing { OnOk result (issued.new.items ≡ issued.old.items ++ issued_before number found []) }
    ensures lawful { OnOk result (AllByRecursion IsIssued issued.new.items) }
{
    if let Some(bytes) = found {
        are_bytes(bytes.as_slice());
        issued.push((number, bytes))?;
    }
    Ok(())
}

/// Their roots and the imprints of their items are imprints, and the names of these are names, as their types keep it.
fn imprints_of(seconds: &[Second])
    ensures { AllByRecursion HasImprints seconds.now }
{
    'seconds: for one in seconds {
        let _root = one.root.bytes();
        imprints_in(one.items.as_slice());
    }
}

/// All have imprints, and names where they have any, as their types keep it.
pub(crate) fn imprints_in(items: &[Item])
    ensures { AllByRecursion (λ item. IsImprint item.imprint × IfSome item.name IsName) items.now }
{
    'items: for item in items {
        let _imprint = item.imprint.bytes();
        name_of(item);
    }
}

/// The name of an item is one, where it has any.
fn name_of(item: &Item)
    ensures { IfSome item.now.name IsName }
{
    if let Some(name) = &item.name {
        let _letters = name.as_bytes();
    }
}

/// A copy of what is published.
fn publications_of(
    alloc: Global,
    published: &PublishedRoots,
) -> Result<Vec<(u64, Imprint)>, NoMemory>
    ensures same { IfOk result (λ copy. copy.items ≡ published.now) }
    ensures imprints { IfOk result (λ copy. AllByRecursion (λ publication. IsImprint publication.1) copy.items) }
{
    let publications = published.iter();
    let mut copy = Vec::with_capacity(alloc, publications.len())?;
    'publications: for (second, root) in publications {
        let _imprint = root.bytes();
        copy.push((*second, *root))?;
    }
    Ok(copy)
}
