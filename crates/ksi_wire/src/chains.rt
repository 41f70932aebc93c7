// What a core tells of the chain of a second.
ghost use Rattle.std.specs.Prelude.{◌≡◌, ◌<◌, ◌≤◌, ◌^◌, ◌++◌, ◌∷◌, [], map, IfOk, OnOk};
ghost use Rattle.ksi_schedule.specs.Printed.{line_of, text_of_lines};
ghost use Rattle.ksi_wire.specs.Chains.{chain_lines, chain_text, link_words};

use crate::printing::put_imprint;
use crate::questions::ChainEnds;
use ksi_corenode::{Core, HeldChain};
use ksi_imprint::{Compress, Imprint, NoMemory};
use ksi_split::{Side, TreeLink};
use std::alloc::Global;

/// The block for the chain of a second in what a core holds: the root of the calendar that it leads to, and its links, the
/// lowest first.
pub fn chain_text<C: Compress>(
    alloc: Global,
    core: &Core<C>,
    ends: ChainEnds,
) -> Result<Vec<u8>, NoMemory>
    requires from { core.now.start ≤ ends.to }
    requires below { ends.to < 2 ^ 63 }
    ensures { IfOk result (λ text. text.items ≡ chain_text C.image core.now ends) }
{
    let chain = core.chain(ends.from, ends.to)?;
    let mut text = Vec::new(alloc);
    put_chain(&mut text, &chain)?;
    text.extend_from_slice(b".\n")?;
    Ok(text)
}

/// The lines of a chain, or the one that there is none.
fn put_chain(text: &mut Vec<u8>, chain: &Option<HeldChain>) -> Result<(), NoMemory>
    ensures { OnOk result (text.new.items ≡ text.old.items ++ text_of_lines (chain_lines chain.now)) }
{
    match chain {
        None => {
            text.extend_from_slice(b"not held\n")?;
            Ok(())
        }
        Some(chain) => {
            text.extend_from_slice(b"published")?;
            put_imprint(text, &chain.root)?;
            text.push(b'\n')?;
            put_links(text, chain.links.as_slice())
        }
    }
}

fn put_links(text: &mut Vec<u8>, links: &[TreeLink<Imprint>]) -> Result<(), NoMemory>
    ensures { OnOk result (text.new.items ≡ text.old.items ++ text_of_lines (map link_words links.now)) }
{
    'links: for link in links {
        put_link(text, link)?;
    }
    Ok(())
}

fn put_link(text: &mut Vec<u8>, link: &TreeLink<Imprint>) -> Result<(), NoMemory>
    ensures { OnOk result (text.new.items ≡ text.old.items ++ (line_of (link_words link.now) ++ 10 ∷ [])) }
{
    match link.side {
        Side::Left => text.extend_from_slice(b"left")?,
        Side::Right => text.extend_from_slice(b"right")?,
    }
    put_imprint(text, &link.sibling)?;
    text.push(b'\n')?;
    Ok(())
}
