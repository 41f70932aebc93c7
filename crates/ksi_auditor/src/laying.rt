ghost use Rattle.std.specs.List.{AllByRecursion};
ghost use Rattle.std.specs.Prelude.{◌≡◌, ◌<◌, ◌≤◌, ◌-◌, ◌^◌, [], IfOk, OnErr, length, map};
ghost use Rattle.ksi_aggtree.specs.Climbing.{level_after};
ghost use Rattle.ksi_aggtree.specs.Links.{highest_level};
ghost use Rattle.ksi_aggtree.specs.Rounds.{IsRound, most_items};
ghost use Rattle.ksi_signature.specs.Seen.{seen};
ghost use Rattle.ksi_journal.specs.Journal.{IsItem};
ghost use Rattle.ksi_verifier.specs.Leading.{all_links};
ghost use Rattle.ksi_verifier.specs.Lent.{calendar_of};
ghost use Rattle.ksi_auditor.specs.Audit.{compared, item_named, laid_if, laid_over, links_of};
ghost use Rattle.ksi_auditor.specs.Shown.{HasClash, IsShort};
ghost use Rattle.ksi_auditor.specs.declared.answer.Audit.TheVariants as answers;

use crate::answer::Audit;
use crate::calendar::CalendarTo;
use crate::chains::{along_chains, count_of};
use crate::items::ItemsOf;
use crate::laid::LaidChain;
use ksi_aggtree::Item;
use ksi_aggtree::chains::Node;
use ksi_beside::{Place, Walk, along_calendar};
use ksi_calendar::Calendar;
use ksi_imprint::{Compress, Imprint, NoMemory};
use ksi_signature::{ChainView, SignatureView};
use ksi_split::{ShapeFault, Side, second_of};
use ksi_verifier::{CalendarPart, Refusal, lent_calendar};
use std::alloc::Global;
use std::marker::PhantomData;

/// The place of an accepted signature's hash among the items of its second. The calendar has the seconds whose root the
/// signature leads to. Nothing is read of the items of other seconds.
///
/// # Errors
/// `NoMemory` only if the answer would be a clash.
pub fn lay_view<C: Compress>(
    alloc: Global,
    calendar: &Calendar<C>,
    items: &[Item],
    signature: &SignatureView<'_>,
    hash: &Imprint,
    second: u64,
) -> Result<Audit, NoMemory>
    requires levels { level_after 0 (links_of (seen signature.now)) ≤ highest_level }
    requires few { length items.now ≤ most_items }
    requires items { AllByRecursion IsItem items.now }
    ensures answer { IfOk result (λ answer. answer ≡
        laid_if C.image calendar.now items.now (links_of (seen signature.now)) hash.now second (seen signature.now).calendar) }
    ensures memory { OnErr result (HasClash
        (laid_if C.image calendar.now items.now (links_of (seen signature.now)) hash.now second (seen signature.now).calendar)) }
    ensures short { IfOk result IsShort }
{
    let chains = signature.chains();
    match signature.calendar() {
        None => Ok(Audit::NotAccepted(Refusal::NoCalendar)),
        Some(chain) => {
            let _below = chain.publication();
            let links = chain.links();
            let part = lent_calendar(&chain, &links);
            lay_beside::<C, ChainView<'_>>(alloc, calendar, items, chains, &part, hash, second)
        }
    }
}

/// Lays the links of an accepted signature beside the calendar of seconds, and then beside the tree of its second's items.
pub(crate) fn lay_beside<C: Compress, T: LaidChain>(
    alloc: Global,
    calendar: &Calendar<C>,
    items: &[Item],
    chains: &[T],
    part: &CalendarPart<'_>,
    hash: &Imprint,
    second: u64,
) -> Result<Audit, NoMemory>
    requires few { length chains.now ≤ 16 }
    requires levels { level_after 0 (all_links (map T.plain chains.now)) ≤ highest_level }
    requires early { (calendar_of part.now).publication < 2 ^ 63 }
    requires round { IsRound items.now }
    ensures audit { IfOk result (λ audit. audit ≡
        laid_over C.image calendar.now items.now (all_links (map T.plain chains.now)) hash.now second (calendar_of part.now)) }
    ensures memory { OnErr result (HasClash
        (laid_over C.image calendar.now items.now (all_links (map T.plain chains.now)) hash.now second (calendar_of part.now))) }
    ensures short { IfOk result IsShort }
{
    let kept = CalendarTo {
        calendar,
        last: part.publication,
    };
    let input = part.input;
    let above = along_calendar::<C, CalendarTo<'_, C>>(alloc, &kept, &input, part.links)?;
    match above.clash() {
        Some(clash) => Ok(Audit::Clash(clash)),
        None => lay_below::<C, T>(alloc, items, chains, hash, second),
    }
}

/// Lays the links of aggregation chains beside the tree of items.
fn lay_below<C: Compress, T: LaidChain>(
    alloc: Global,
    items: &[Item],
    chains: &[T],
    hash: &Imprint,
    second: u64,
) -> Result<Audit, NoMemory>
    requires round { IsRound items.now }
    requires count { length chains.now ≤ 16 }
    requires levels { level_after 0 (all_links (map T.plain chains.now)) ≤ highest_level }
    ensures audit { IfOk result (λ audit. audit ≡
        compared C.image items.now (all_links (map T.plain chains.now)) hash.now second []) }
    ensures memory { OnErr result (HasClash
        (compared C.image items.now (all_links (map T.plain chains.now)) hash.now second [])) }
    ensures short { IfOk result IsShort }
{
    let tree = ItemsOf::<C> {
        items,
        hash: PhantomData,
    };
    let start = Node {
        imprint: *hash,
        level: 0,
    };
    let walk = along_chains::<C, ItemsOf<'_, C>, T>(alloc, &tree, &start, chains)?;
    match walk {
        Walk::Apart(clash) => Ok(Audit::Clash(clash)),
        Walk::At(place) => Ok(Audit::Inside(second, place.way())),
        Walk::Past(place) => {
            let links = count_of(chains);
            Ok(beneath(second, items.len() as u64, &place, links))
        }
    }
}

/// The item that a place belongs to, and the links that are left there.
fn beneath(second: u64, items: u64, place: &Place, links: u64) -> Audit
    requires few { items ≤ most_items }
    requires some { length place.now ≤ links }
    ensures { result ≡ answers.Beneath second (item_named items place.now) (links - length place.now) }
{
    let item = item_named(items, place.way().as_slice());
    Audit::Beneath(second, item, links - u64::from(place.depth()))
}

/// The item whose leaf the sides lead to, or pass: below the leaf of a name stands the item that has it.
fn item_named(items: u64, sides: &[Side]) -> u64
    requires { items ≤ most_items }
    ensures { result ≡ item_named items sides.now }
{
    let last = items.saturating_sub(1);
    match second_of(last, sides) {
        Ok(item) => item,
        Err(ShapeFault::TooMany(place)) => second_of(last, &sides[..place]).unwrap_or(0),
        Err(ShapeFault::TooFew(_)) => 0,
    }
}
