//! The union of two mirrors.
ghost use Rattle.std.specs.Prelude.{◌≡◌, ◌≢◌, Ok, IfOk};
ghost use Rattle.ksi_imprint.specs.Refused.{IfRefused, OrNoMemory};
ghost use Rattle.ksi_mirror.specs.Mirrors.{MirrorState, IsMirror, rank};
ghost use Rattle.ksi_mirror.specs.Keys.{DifferFirst, IsUnited};
ghost use Rattle.ksi_mirror.specs.Merged.{merged_of, merged_then, SameOrRefused};
ghost use Rattle.ksi_mirror.specs.Merging.{Merges, IsMergeRefusal, AreTrees};

use crate::entries::first_difference;
use crate::laws::{merged_is_a_join, merged_is_merging, mirror_is_kept};
use crate::mirror::Mirror;
use crate::parts::MirrorParts;
use crate::refusal::MergeRefusal;
use crate::sealed_list::SealedList;
use crate::uniting::united;
use ksi_imprint::{Imprint, Refused};
use std::alloc::Global;

/// What either mirror has, in one pass over both. Whatever the order, two or three mirrors give the same one or are refused,
/// and merging one of them again changes nothing; a mirror merged with itself is that mirror
/// ([`merged_is_a_join`](crate::laws::merged_is_a_join)).
///
/// # Errors
/// `Starts` exactly where the starts differ; else at the least second for which they have something different `Conflict`
/// exactly where its roots differ, else `Trees` with the lowest core whose lists differ and the first place where they do.
/// `NoMemory` only where the starts are the same.
pub fn merge(alloc: Global, one: &Mirror, two: &Mirror) -> Result<Mirror, Refused<MergeRefusal>>
    ensures merged { IfOk result (Merges one.now two.now) }
    ensures refused { IfRefused result (IsMergeRefusal one.now two.now) (one.now.start ≡ two.now.start) }
    ensures answer { OrNoMemory (merged_of one.now two.now) result }
    ensures same { merged_of one.now one.now ≡ Ok one.now }
    ensures either { SameOrRefused (merged_of one.now two.now) (merged_of two.now one.now) }
    ensures any_order { (three : MirrorState) → IsMirror three →
        SameOrRefused (merged_then (merged_of one.now two.now) (λ first. merged_of first three))
        (merged_then (merged_of two.now three) (λ second. merged_of one.now second)) }
    ensures again { IfOk result (λ merged. merged_of merged one.now ≡ Ok merged) }
{
    merged_is_a_join();
    merged_is_merging();
    mirror_is_kept(one);
    mirror_is_kept(two);
    match union_of(alloc, one, two) {
        Ok(merged) => {
            mirror_is_kept(&merged);
            Ok(merged)
        }
        Err(refused) => Err(refused),
    }
}

/// The union of both.
fn union_of(alloc: Global, one: &Mirror, two: &Mirror) -> Result<Mirror, Refused<MergeRefusal>>
    ensures merged { IfOk result (Merges one.now two.now) }
    ensures refused { IfRefused result (IsMergeRefusal one.now two.now) (one.now.start ≡ two.now.start) }
{
    if one.start() != two.start() {
        return Err(Refused::Fault(MergeRefusal::Starts(one.start(), two.start())));
    }
    match united(alloc, one.roots(), two.roots()) {
        Ok(roots) => with_roots(alloc, one, two, roots),
        Err(Refused::Fault((first, second))) => without_roots(alloc, one, two, first, second),
        Err(Refused::NoMemory) => Err(Refused::NoMemory),
    }
}

/// The mirror with these roots, which are those of both.
fn with_roots(
    alloc: Global,
    one: &Mirror,
    two: &Mirror,
    roots: Vec<(u64, Imprint)>,
) -> Result<Mirror, Refused<MergeRefusal>>
    requires start { one.now.start ≡ two.now.start }
    requires roots { IsUnited (λ root. root.0) one.now.roots two.now.roots roots.items }
    ensures merged { IfOk result (Merges one.now two.now) }
    ensures refused { IfRefused result (IsMergeRefusal one.now two.now) (one.now.start ≡ two.now.start) }
{
    match united(alloc, one.lists(), two.lists()) {
        Ok(lists) => {
            let start = one.start();
            Ok(Mirror::new(MirrorParts {
                start,
                roots,
                lists,
            }))
        }
        Err(Refused::Fault((first, second))) => Err(Refused::Fault(trees(first, second))),
        Err(Refused::NoMemory) => Err(Refused::NoMemory),
    }
}

/// Why they are not merged, where these roots of a second differ.
fn without_roots(
    alloc: Global,
    one: &Mirror,
    two: &Mirror,
    first: &(u64, Imprint),
    second: &(u64, Imprint),
) -> Result<Mirror, Refused<MergeRefusal>>
    requires start { one.now.start ≡ two.now.start }
    requires differ { DifferFirst (λ root. root.0) one.now.roots two.now.roots first.now second.now }
    ensures merged { IfOk result (Merges one.now two.now) }
    ensures refused { IfRefused result (IsMergeRefusal one.now two.now) (one.now.start ≡ two.now.start) }
{
    let (list, other) = match united(alloc, one.lists(), two.lists()) {
        Ok(_) => return Err(Refused::Fault(conflict(first, second))),
        Err(Refused::Fault(both)) => both,
        Err(Refused::NoMemory) => return Err(Refused::NoMemory),
    };
    Err(Refused::Fault(first_of_both(one, two, (first, second), (list, other))))
}

/// The refusal of the lesser second, where these roots of one differ, and these lists of one; of the roots at one second.
fn first_of_both(
    one: &Mirror,
    two: &Mirror,
    roots: (&(u64, Imprint), &(u64, Imprint)),
    lists: (&SealedList, &SealedList),
) -> MergeRefusal
    requires start { one.now.start ≡ two.now.start }
    requires roots { DifferFirst (λ root. root.0) one.now.roots two.now.roots roots.0.now roots.1.now }
    requires lists { DifferFirst rank one.now.lists two.now.lists lists.0.now lists.1.now }
    ensures { IsMergeRefusal one.now two.now result }
{
    mirror_is_kept(one);
    mirror_is_kept(two);
    if lists.0.second < roots.0.0 {
        trees(lists.0, lists.1)
    } else {
        conflict(roots.0, roots.1)
    }
}

/// Two roots of a second.
fn conflict(one: &(u64, Imprint), two: &(u64, Imprint)) -> MergeRefusal
    ensures { result ≡ MergeRefusal.Conflict one.now.0 one.now.1 two.now.1 }
{
    MergeRefusal::Conflict(one.0, one.1, two.1)
}

/// Two lists of a core and a second, which differ.
fn trees(one: &SealedList, two: &SealedList) -> MergeRefusal
    requires { one.now.items ≢ two.now.items }
    ensures { AreTrees one.now two.now result }
{
    match first_difference(one.items.as_slice(), two.items.as_slice()) {
        Some(place) => MergeRefusal::Trees(one.second, one.core, place),
        None => unreachable!(),
    }
}
