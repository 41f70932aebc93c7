//! Items as elements: 33 bytes of imprint and one of level, and where the item has a name, its bytes behind these.
ghost use Rattle.std.specs.Prelude.{◌≡◌, ◌≤◌, ◌++◌, ◌∷◌, [], None, IfOk, OnOk, length};
ghost use Rattle.ksi_tlv.specs.Spelling.{canonical, plain};
ghost use Rattle.ksi_tlv.specs.Views.{view_placed};
ghost use Rattle.ksi_aggtree.specs.Rounds.{highest_item, leaf_level};
ghost use Rattle.ksi_journal.specs.Elements.{head_in, plain_in, named_in, item_in};
ghost use Rattle.ksi_journal.specs.Written.{item_element};

use crate::fault::JournalFault;
use crate::loading::named;
use ksi_aggtree::{HIGHEST_ITEM, Item, Name};
use ksi_imprint::{Imprint, NoMemory};
use ksi_tlv::grammar::put_short;
use ksi_tlv::order::OrderFault;
use ksi_tlv::{Placed, Writer};

/// The kind of an item without a name.
pub(crate) const ITEM: u16 = 0x03;

/// The kind of an item with a name.
pub(crate) const NAMED: u16 = 0x07;

/// The highest level of an item with a name, whose leaf is one level above it.
const HIGHEST_NAMED: u8 = 238;

/// The item that an element of kind 3 is, or with a name one of kind 7.
///
/// # Errors
/// In this order: `Imprint` if the body does not have 34 bytes, with a name fewer, or no imprint; `Bound` at a level
/// above 239, with a name above 238; `Name` if the bytes after the first 34 are no name.
#[tactic(auto, unfolding(crate::specs::Elements::item_in))]
pub fn read_item(at: &Placed<'_>) -> Result<Item, JournalFault>
    ensures value { result ≡ item_in (view_placed at.now) }
    ensures low { IfOk result (λ item. leaf_level item ≤ highest_item) }
{
    if at.element.kind == NAMED {
        return read_named(at);
    }
    match read_plain(at) {
        Ok(item) => Ok(item),
        Err(fault) => Err(named(fault)),
    }
}

#[tactic(auto, unfolding(crate::specs::Elements::plain_in))]
fn read_plain(at: &Placed<'_>) -> Result<Item, OrderFault>
    ensures value { result ≡ plain_in (view_placed at.now) }
    ensures low { IfOk result (λ item. leaf_level item ≤ highest_item) }
{
    if at.element.body.len() != 34 {
        return Err(OrderFault::Imprint(at.place));
    }
    read_head(at, HIGHEST_ITEM)
}

#[tactic(auto, unfolding(crate::specs::Elements::named_in))]
fn read_named(at: &Placed<'_>) -> Result<Item, JournalFault>
    ensures value { result ≡ named_in (view_placed at.now) }
    ensures low { IfOk result (λ item. leaf_level item ≤ highest_item) }
{
    let body = at.element.body;
    if body.len() < 34 {
        return Err(JournalFault::Imprint(at.place));
    }
    let item = match read_head(at, HIGHEST_NAMED) {
        Ok(item) => item,
        Err(fault) => return Err(named(fault)),
    };
    let (_, letters) = body.split_at(34);
    match Name::read(letters) {
        Some(name) => Ok(item.with_name(Some(name))),
        None => Err(JournalFault::Name(at.place)),
    }
}

/// The imprint and the level of the first 34 bytes.
#[tactic(auto, unfolding(crate::specs::Elements::head_in))]
fn read_head(at: &Placed<'_>, highest: u8) -> Result<Item, OrderFault>
    requires { 34 ≤ length at.now.element.body.now }
    ensures value { result ≡ head_in highest (view_placed at.now) }
    ensures low { IfOk result (λ item. item.level ≤ highest) }
    ensures unnamed { IfOk result (λ item. item.name ≡ None) }
{
    let (head, rest) = at.element.body.split_at(33);
    let Ok(imprint) = Imprint::read(head) else {
        return Err(OrderFault::Imprint(at.place));
    };
    let level = rest[0];
    if level > highest {
        return Err(OrderFault::Bound(at.place));
    }
    Ok(Item::new(imprint, level))
}

/// Writes the element of an item behind what is there.
///
/// # Errors
/// `NoMemory`.
pub(crate) fn put_item(writer: &mut Writer, item: &Item) -> Result<(), NoMemory>
    ensures { OnOk result (writer.new ≡ writer.old ++ canonical (item_element item.now)) }
{
    match &item.name {
        None => put_plain(writer, item),
        Some(name) => put_named(writer, item, name),
    }
}

fn put_plain(writer: &mut Writer, item: &Item) -> Result<(), NoMemory>
    ensures { OnOk result (writer.new ≡ writer.old ++ canonical (plain 3 (item.now.imprint ++ item.now.level ∷ []))) }
{
    let mut body = [0; 34];
    put_head(&mut body, item);
    put_short(writer, ITEM, &body)
}

fn put_named(writer: &mut Writer, item: &Item, name: &Name) -> Result<(), NoMemory>
    ensures { OnOk result (writer.new ≡ writer.old ++ canonical (plain 7 (item.now.imprint ++ item.now.level ∷ name.now))) }
{
    let letters = name.as_bytes();
    let mut bytes = [0; 98];
    let (body, _) = bytes.split_at_mut(34 + letters.len());
    let (head, last) = body.split_at_mut(34);
    put_head(head, item);
    last.copy_from_slice(letters);
    put_short(writer, NAMED, body)
}

/// Puts the imprint and the level into 34 bytes.
fn put_head(head: &mut [u8], item: &Item)
    requires { length head.old ≡ 34 }
    ensures { head.new ≡ item.now.imprint ++ item.now.level ∷ [] }
{
    let (imprint, level) = head.split_at_mut(33);
    imprint.copy_from_slice(item.imprint.bytes());
    level[0] = item.level;
}
