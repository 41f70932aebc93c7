// The rows of aggregation chains: each link with what stands beside it, and the node that it leads to.
ghost use Rattle.std.specs.Prelude.{◌≡◌, ◌++◌, ◌∷◌, [], codes, length, map, IfOk, OnOk};
ghost use Rattle.std.specs.Fmt.{decimal};
ghost use Rattle.ksi_imprint.specs.Imprints.{imprint_of};
ghost use Rattle.ksi_schedule.specs.Printed.{text_of_lines};
ghost use Rattle.ksi_aggtree.specs.Climbing.{climbed};
ghost use Rattle.ksi_aggtree.specs.Lent.{lent_link, lent_links};
ghost use Rattle.ksi_verifier.specs.Lent.{lent_chain};
ghost use Rattle.ksi_texts.specs.Chains.{chain_rows, chains_rows, head_row, input_at, link_row, link_rows, over_row, row_beside, side_word, top_level};
ghost use Rattle.ksi_texts.specs.Words.{word_text};

use crate::names::name_in;
use crate::printing::put;
use crate::word::Word::{self, Digest, Number, Quoted, Second, Short, Text};
use ksi_aggtree::chains::{LevelFault, LinkView, Node, climb_link};
use ksi_imprint::{NoMemory, Sha};
use ksi_signature::ChainView;
use ksi_split::Side;

/// The rows of chains, the lowest first, from level 0.
pub(crate) fn put_chains(text: &mut Vec<u8>, chains: &[ChainView<'_>]) -> Result<(), NoMemory>
    ensures { OnOk result (text.new.items ≡ text.old.items ++ text_of_lines (chains_rows 0 0 (map lent_chain chains.now))) }
{
    let mut level = 0;
    for (k, chain) in chains.iter().enumerate() {
        level = put_chain(text, k, level, chain)?;
    }
    Ok(())
}

/// The rows of chain `k` from a level, and the level that it leads to.
fn put_chain(text: &mut Vec<u8>, k: usize, level: u8, chain: &ChainView<'_>) -> Result<u8, NoMemory>
    ensures told { OnOk result (text.new.items ≡ text.old.items ++ text_of_lines (chain_rows k level (lent_chain chain.now))) }
    ensures level { IfOk result (λ top. top ≡ top_level (climbed imprint_of 0 (input_at level (lent_chain chain.now)) (lent_chain chain.now).links)) }
{
    let start = Node {
        imprint: chain.input(),
        level,
    };
    let links = chain.links();
    let links = links.as_slice();
    put_head(text, k, links.len(), chain.time())?;
    put(text, &[Text("  begins with"), Digest(&start.imprint)])?;
    put_links(text, start, links)?;
    Ok(top_level(chain.climb::<Sha>(start)))
}

fn put_head(text: &mut Vec<u8>, k: usize, links: usize, time: u64) -> Result<(), NoMemory>
    ensures { OnOk result (text.new.items ≡ text.old.items ++ text_of_lines (head_row k links time ∷ [])) }
{
    let words = [
        Text("chain"),
        Number(k as u64),
        Text("with"),
        Number(links as u64),
        Text("links, of second"),
        Second(time),
    ];
    put(text, &words)
}

/// The level that a chain leads to, the highest where it passes that.
fn top_level(top: Result<Node, LevelFault>) -> u8
    ensures { result ≡ top_level top }
{
    match top {
        Ok(top) => top.level,
        Err(_) => 255,
    }
}

/// A row for each link, from a node up to the first whose level passes 255.
fn put_links(text: &mut Vec<u8>, start: Node, links: &[LinkView<'_>]) -> Result<(), NoMemory>
    ensures { OnOk result (text.new.items ≡ text.old.items ++ text_of_lines (link_rows 0 start (lent_links links.now))) }
{
    let mut node = start;
    for (place, link) in links.iter().enumerate() {
        match climb_link::<Sha, LinkView<'_>>(node, place, link) {
            Ok(above) => {
                put_link(text, place, link, &above)?;
                node = above;
            }
            Err(_) => return put_over(text, place),
        }
    }
    Ok(())
}

fn put_over(text: &mut Vec<u8>, place: usize) -> Result<(), NoMemory>
    ensures { OnOk result (text.new.items ≡ text.old.items ++ text_of_lines (over_row place ∷ [])) }
{
    put(
        text,
        &[
            Text("  link"),
            Number(place as u64),
            Text("passes level 255"),
        ],
    )
}

/// The row of a link that leads to a node.
fn put_link(
    text: &mut Vec<u8>,
    place: usize,
    link: &LinkView<'_>,
    above: &Node,
) -> Result<(), NoMemory>
    ensures { OnOk result (text.new.items ≡ text.old.items ++ text_of_lines (link_row place above.now (lent_link link.now) ∷ [])) }
{
    if !link.raw {
        return put_beside(text, place, link.side, "hash", Short(link.sibling), above);
    }
    match name_in(link.sibling) {
        Some(name) => put_beside(text, place, link.side, "name", Quoted(name), above),
        None => put_beside(text, place, link.side, "bytes", Quoted(link.sibling), above),
    }
}

fn put_beside<'a>(
    text: &mut Vec<u8>,
    place: usize,
    side: Side,
    kind: &'a str,
    sibling: Word<'a>,
    above: &'a Node,
) -> Result<(), NoMemory>
    ensures { OnOk result (text.new.items ≡ text.old.items ++ text_of_lines (row_beside place side (kind.now ∷ word_text sibling.entry ∷ []) above.now ∷ [])) }
{
    let words = [
        Text("  link"),
        Number(place as u64),
        Text(side_word(side)),
        Text(kind),
        sibling,
        Text("makes"),
        Short(above.imprint.bytes()),
        Text("at level"),
        Number(above.level as u64),
    ];
    put(text, &words)
}

/// Where a node stands in a join.
pub(crate) fn side_word(side: Side) -> &'static str
    ensures { result.now ≡ side_word side }
{
    match side {
        Side::Left => "left of",
        Side::Right => "right of",
    }
}
