//! Mirrors as they are written.
ghost use Rattle.std.specs.Prelude.{◌≡◌, ◌++◌, ◌∷◌, [], ◌≤◌, length, map, OnOk, IfOk};
ghost use Rattle.ksi_tlv.specs.Spelling.{canonical};
ghost use Rattle.ksi_tlv.specs.Writing.{texts};
ghost use Rattle.ksi_journal.specs.Written.{pair_elements, item_element};
ghost use Rattle.ksi_mirror.specs.Mirrors.{IsMirror};
ghost use Rattle.ksi_mirror.specs.File.{IsMirrorFile};
ghost use Rattle.ksi_mirror.specs.Written.{root_element, head_elements, list_element, list_elements, lists_elements, mirror_elements, mirror_text};

use crate::laws::{mirror_is_kept, written_is_mirror};
use crate::loading::{END, ITEM, LIST, NAMED, ROOT, START};
use crate::mirror::Mirror;
use crate::reader::MAGIC;
use crate::sealed_list::SealedList;
use ksi_aggtree::Item;
use ksi_imprint::{Bytes, Imprint, NoMemory};
use ksi_tlv::Writer;
use ksi_tlv::grammar::put_short;
use ksi_tlv::laws::numeral_is_read;
use std::alloc::Global;

/// The text of a mirror, which loads again as the mirror.
///
/// # Errors
/// `NoMemory`.
pub fn write_mirror(alloc: Global, mirror: &Mirror) -> Result<Bytes, NoMemory>
    ensures text { IfOk result (λ text. text ≡ mirror_text mirror.now) }
    ensures again { IfOk result (λ text. IsMirrorFile text mirror.now) }
{
    written_is_mirror();
    mirror_is_kept(mirror);
    let mut magic = Vec::new(alloc);
    magic.extend_from_slice(MAGIC)?;
    let mut writer = Writer::behind(magic);
    put_elements(&mut writer, alloc, mirror)?;
    Ok(Bytes::from_vec(writer.into_vec()))
}

fn put_elements(writer: &mut Writer, alloc: Global, mirror: &Mirror) -> Result<(), NoMemory>
    ensures { OnOk result (writer.new ≡ writer.old ++ texts (mirror_elements mirror.now)) }
{
    writer.put_number(START, mirror.start())?;
    put_roots(writer, alloc, mirror.roots())?;
    put_lists(writer, alloc, mirror.lists())?;
    put_short(writer, END, &[])?;
    Ok(())
}

/// A writer of nothing yet, with room for this many bytes.
fn body_of(alloc: Global, room: usize) -> Result<Writer, NoMemory>
    ensures { IfOk result (λ body. body ≡ []) }
{
    Ok(Writer::behind(Vec::with_capacity(alloc, room)?))
}

fn put_roots(writer: &mut Writer, alloc: Global, roots: &[(u64, Imprint)]) -> Result<(), NoMemory>
    ensures { OnOk result (writer.new ≡ writer.old ++ texts (map root_element roots.now)) }
{
    'roots: for root in roots {
        put_root(writer, alloc, root)?;
    }
    Ok(())
}

fn put_root(writer: &mut Writer, alloc: Global, root: &(u64, Imprint)) -> Result<(), NoMemory>
    ensures { OnOk result (writer.new ≡ writer.old ++ canonical (root_element root.now)) }
{
    let body = root_body(alloc, root)?;
    put_short(writer, ROOT, body.bytes())
}

fn root_body(alloc: Global, root: &(u64, Imprint)) -> Result<Writer, NoMemory>
    ensures text { IfOk result (λ body. body ≡ texts (pair_elements root.now)) }
    ensures short { IfOk result (λ body. length body ≤ 65535) }
{
    numeral_is_read();
    let mut body = body_of(alloc, 64)?;
    body.put_number(0x01, root.0)?;
    put_short(&mut body, 0x02, root.1.bytes())?;
    Ok(body)
}

fn put_lists(writer: &mut Writer, alloc: Global, lists: &[SealedList]) -> Result<(), NoMemory>
    ensures { OnOk result (writer.new ≡ writer.old ++ texts (lists_elements lists.now)) }
{
    'lists: for one in lists {
        put_list(writer, alloc, one)?;
    }
    Ok(())
}

/// A list and its items.
fn put_list(writer: &mut Writer, alloc: Global, one: &SealedList) -> Result<(), NoMemory>
    ensures { OnOk result (writer.new ≡ writer.old ++ texts (list_elements one.now)) }
{
    put_head(writer, alloc, one)?;
    put_items(writer, alloc, one.items.as_slice())
}

fn put_head(writer: &mut Writer, alloc: Global, one: &SealedList) -> Result<(), NoMemory>
    ensures { OnOk result (writer.new ≡ writer.old ++ canonical (list_element one.now)) }
{
    let body = head_body(alloc, one)?;
    put_short(writer, LIST, body.bytes())
}

fn head_body(alloc: Global, one: &SealedList) -> Result<Writer, NoMemory>
    ensures text { IfOk result (λ body. body ≡ texts (head_elements one.now)) }
    ensures short { IfOk result (λ body. length body ≤ 65535) }
{
    numeral_is_read();
    let mut body = body_of(alloc, 32)?;
    body.put_number(0x01, one.second)?;
    body.put_number(0x02, u64::from(one.core))?;
    body.put_number(0x03, one.items.as_slice().len() as u64)?;
    Ok(body)
}

fn put_items(writer: &mut Writer, alloc: Global, items: &[Item]) -> Result<(), NoMemory>
    ensures { OnOk result (writer.new ≡ writer.old ++ texts (map item_element items.now)) }
{
    'items: for item in items {
        put_item(writer, alloc, item)?;
    }
    Ok(())
}

/// An item, and behind it its name where it has one.
fn put_item(writer: &mut Writer, alloc: Global, item: &Item) -> Result<(), NoMemory>
    ensures { OnOk result (writer.new ≡ writer.old ++ canonical (item_element item.now)) }
{
    let mut body = Vec::with_capacity(alloc, 98)?;
    body.extend_from_slice(item.imprint.bytes())?;
    body.extend_from_slice(&[item.level])?;
    match &item.name {
        None => put_short(writer, ITEM, &body),
        Some(name) => {
            body.extend_from_slice(name.as_bytes())?;
            put_short(writer, NAMED, &body)
        }
    }
}
