// What a core tells of what it has.
ghost use Rattle.std.specs.Prelude.{◌≡◌, ◌<◌, ◌+◌, ◌^◌, ◌++◌, ◌∷◌, [], map, IfOk, OnOk};
ghost use Rattle.ksi_aggtree.specs.Entries.{items_of};
ghost use Rattle.ksi_corenode.specs.CoreState.{state_of};
ghost use Rattle.ksi_schedule.specs.Printed.{line_of, text_of_lines};
ghost use Rattle.ksi_wire.specs.Questions.{IsSpan};
ghost use Rattle.ksi_wire.specs.Told.{held_lines, held_text, root_lines, sealed_lines, sealed_words, second_lines};

use crate::printing::{put_imprint, put_item, put_of_second};
use crate::questions::Span;
use ksi_aggtree::{Entry, Item};
use ksi_corenode::Core;
use ksi_imprint::{Compress, Imprint, NoMemory};
use std::alloc::Global;

/// The block of a core's data for a number of seconds: the roots that it holds, and the items that it sealed.
pub fn held_text<C: Compress>(
    alloc: Global,
    core: &Core<C>,
    span: Span,
) -> Result<Vec<u8>, NoMemory>
    requires { IsSpan span }
    ensures { IfOk result (λ text. text.items ≡ held_text core.now span) }
{
    let mut text = Vec::new(alloc);
    put_held(&mut text, core, span.from, span.count)?;
    text.extend_from_slice(b".\n")?;
    Ok(text)
}

/// The lines of this many seconds from this one on.
fn put_held<C: Compress>(
    text: &mut Vec<u8>,
    core: &Core<C>,
    from: u64,
    count: u64,
) -> Result<(), NoMemory>
    requires { from + count < 2 ^ 64 }
    ensures { OnOk result (text.new.items ≡ text.old.items ++ text_of_lines (held_lines core.now from count)) }
{
    'telling: for behind in 0..count {
        put_second(text, core, from + behind)?;
    }
    Ok(())
}

/// The root that is held for a second, and the items that were sealed for it.
fn put_second<C: Compress>(text: &mut Vec<u8>, core: &Core<C>, second: u64) -> Result<(), NoMemory>
    ensures { OnOk result (text.new.items ≡ text.old.items ++ text_of_lines (second_lines core.now second)) }
{
    put_root(text, second, core.held(second))?;
    put_sealed(text, core, second)
}

fn put_root(text: &mut Vec<u8>, second: u64, root: Option<Imprint>) -> Result<(), NoMemory>
    ensures { OnOk result (text.new.items ≡ text.old.items ++ text_of_lines (root_lines second root)) }
{
    match &root {
        None => Ok(()),
        Some(root) => {
            put_of_second(text, b"root", second)?;
            put_imprint(text, root)?;
            text.push(b'\n')?;
            Ok(())
        }
    }
}

fn put_sealed<C: Compress>(text: &mut Vec<u8>, core: &Core<C>, second: u64) -> Result<(), NoMemory>
    ensures { OnOk result (text.new.items ≡ text.old.items ++ text_of_lines (sealed_lines second (state_of core.now second).sealed)) }
{
    match core.sealed(second) {
        None => Ok(()),
        Some(entries) => put_items(text, second, entries),
    }
}

fn put_items(text: &mut Vec<u8>, second: u64, entries: &[Entry]) -> Result<(), NoMemory>
    ensures { OnOk result (text.new.items ≡ text.old.items ++ text_of_lines (map (sealed_words second) (items_of entries.now))) }
{
    'items: for entry in entries {
        put_sealed_item(text, second, &entry.item)?;
    }
    Ok(())
}

fn put_sealed_item(text: &mut Vec<u8>, second: u64, item: &Item) -> Result<(), NoMemory>
    ensures { OnOk result (text.new.items ≡ text.old.items ++ (line_of (sealed_words second item.now) ++ 10 ∷ [])) }
{
    put_of_second(text, b"item", second)?;
    put_item(text, item)?;
    text.push(b'\n')?;
    Ok(())
}
