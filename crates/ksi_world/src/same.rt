//! Whether two contents are one.
ghost use Rattle.std.specs.Prelude.{◌≡◌, ◌↔◌, IsTrue};

use crate::message::Content;
use ksi_aggtree::chains::{Link, Sibling};
use ksi_aggtree::{Item, Name};
use ksi_calendar::CalendarLink;
use ksi_signature::{Above, AboveChain};

pub(crate) fn is_same_content(one: &Content, other: &Content) -> bool
    ensures { IsTrue result ↔ (one.now ≡ other.now) }
{
    match (one, other) {
        (Content::Synod(one), Content::Synod(other)) => *one == *other,
        (Content::Submission(one), Content::Submission(other)) => is_same_item(one, other),
        (Content::Response(one), Content::Response(other)) => is_same_above(one, other),
        _ => false,
    }
}

fn is_same_item(one: &Item, other: &Item) -> bool
    ensures { IsTrue result ↔ (one.now ≡ other.now) }
{
    one.imprint == other.imprint && one.level == other.level && is_same_name(&one.name, &other.name)
}

fn is_same_name(one: &Option<Name>, other: &Option<Name>) -> bool
    ensures { IsTrue result ↔ (one.now ≡ other.now) }
{
    match one {
        None => other.is_none(),
        Some(one) => match other {
            None => false,
            Some(other) => one.as_bytes() == other.as_bytes(),
        },
    }
}

/// The chains come first: in them two responses of one second differ.
fn is_same_above(one: &Above, other: &Above) -> bool
    ensures { IsTrue result ↔ (one.now ≡ other.now) }
{
    are_same_chains(one.chains.as_slice(), other.chains.as_slice())
        && one.root == other.root
        && are_same_calendar_links(one.calendar.as_slice(), other.calendar.as_slice())
}

fn are_same_chains(some: &[AboveChain], others: &[AboveChain]) -> bool
    ensures { IsTrue result ↔ (some.now ≡ others.now) }
{
    if some.len() != others.len() {
        return false;
    }
    'chains: for k in 0..some.len() {
        if !is_same_chain(&some[k], &others[k]) {
            return false;
        }
    }
    true
}

fn is_same_chain(one: &AboveChain, other: &AboveChain) -> bool
    ensures { IsTrue result ↔ (one.now ≡ other.now) }
{
    one.input == other.input && are_same_links(one.links.as_slice(), other.links.as_slice())
}

fn are_same_links(some: &[Link], others: &[Link]) -> bool
    ensures { IsTrue result ↔ (some.now ≡ others.now) }
{
    if some.len() != others.len() {
        return false;
    }
    'links: for k in 0..some.len() {
        if !is_same_link(&some[k], &others[k]) {
            return false;
        }
    }
    true
}

fn is_same_link(one: &Link, other: &Link) -> bool
    ensures { IsTrue result ↔ (one.now ≡ other.now) }
{
    one.side == other.side
        && one.correction == other.correction
        && is_same_sibling(&one.sibling, &other.sibling)
}

fn is_same_sibling(one: &Sibling, other: &Sibling) -> bool
    ensures { IsTrue result ↔ (one.now ≡ other.now) }
{
    match (one, other) {
        (Sibling::Imprint(one), Sibling::Imprint(other)) => *one == *other,
        (Sibling::Legacy(one), Sibling::Legacy(other)) => one.as_slice() == other.as_slice(),
        (Sibling::Metadata(one), Sibling::Metadata(other)) => one.as_slice() == other.as_slice(),
        _ => false,
    }
}

fn are_same_calendar_links(some: &[CalendarLink], others: &[CalendarLink]) -> bool
    ensures { IsTrue result ↔ (some.now ≡ others.now) }
{
    if some.len() != others.len() {
        return false;
    }
    'links: for k in 0..some.len() {
        if !is_same_calendar_link(&some[k], &others[k]) {
            return false;
        }
    }
    true
}

fn is_same_calendar_link(one: &CalendarLink, other: &CalendarLink) -> bool
    ensures { IsTrue result ↔ (one.now ≡ other.now) }
{
    one.side == other.side && one.sibling == other.sibling
}
