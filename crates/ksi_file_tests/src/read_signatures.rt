// What is read of a signature, and what a view of its bytes shows, as text.
use crate::imprints::hash;
use crate::same::same_text;
use crate::signatures::TWO_CHAINS;
use crate::text::{bytes, is_refused, push};
use ksi_aggtree::chains::{LinkView, Sibling};
use ksi_signature::{
    AggregationChain, CalendarView, ChainView, Signature, SignatureView, read, view,
};
use std::alloc::Global;
use std::process::Abort;
use std::test::Fail;

/// The kind of a sibling's element.
fn kind(sibling: &Sibling) -> u8 {
    match sibling {
        Sibling::Imprint(_) => 2,
        Sibling::Legacy(_) => 3,
        Sibling::Metadata(_) => 4,
    }
}

/// What was hashed into a chain's input, where it is told.
fn input_body(chain: &AggregationChain) -> Option<&[u8]> {
    match &chain.input_body {
        Some(body) => Some(body.as_slice()),
        None => None,
    }
}

/// A chain's time, whether its input is the hash of no bytes, its index and its input body; then of each link the side, the
/// correction, the sibling's kind and its bytes.
fn say_chain(alloc: Global, said: &mut String, chain: &AggregationChain) -> Result<(), Fail> {
    let index = chain.index.as_slice();
    push(
        alloc,
        said,
        (chain.time, chain.input == hash(), index, input_body(chain)),
    )?;
    for link in chain.links.as_slice() {
        let sibling = (kind(&link.sibling), link.sibling.bytes());
        push(alloc, said, (link.side, link.correction, sibling))?;
    }
    Ok(())
}

/// Of the calendar chain: both times and the number of links.
fn calendar(signature: &Signature) -> Option<(u64, u64, usize)> {
    match &signature.calendar {
        Some(chain) => Some((chain.publication, chain.time, chain.links.as_slice().len())),
        None => None,
    }
}

/// Of the publication record: its time and the number of references and of repository addresses.
fn publication(signature: &Signature) -> Option<(u64, usize, usize)> {
    match &signature.publication {
        Some(record) => Some((
            record.time,
            record.references.as_slice().len(),
            record.repositories.as_slice().len(),
        )),
        None => None,
    }
}

fn says(rt: &impl Abort, alloc: Global, signature: &Signature, want: &str) -> Result<(), Fail> {
    let mut said = String::new(alloc);
    for chain in signature.chains.as_slice() {
        say_chain(alloc, &mut said, chain)?;
    }
    let others = (calendar(signature), publication(signature));
    push(alloc, &mut said, others)?;
    same_text(rt, "said", said.as_str(), want);
    Ok(())
}

/// What is read of the signature of these words.
fn is_read(rt: &impl Abort, alloc: Global, words: &str, want: &str) -> Result<(), Fail> {
    let text = bytes(alloc, words)?;
    match read(alloc, text.as_slice()) {
        Ok(signature) => says(rt, alloc, &signature, want),
        Err(refused) => is_refused(rt, alloc, words, Some(refused)),
    }
}

const ONE: &str = "(0, true, [1], None)
(Some((0, 0, 0)), None)
";

/// The longer index comes first.
const BOTH: &str = "(5, true, [300, 0], Some([97, 98, 99]))
(Left, 2, (3, [255]))
(Right, 0, (4, [1, 2]))
(0, true, [1], None)
(Some((9, 9, 1)), Some((9, 1, 1)))
";

#[test]
fn each_element_is_read_in_any_order(rt: HostRuntime) -> Result<(), Fail> {
    is_read(&rt, rt.alloc(), "8800005a G K", ONE)?;
    is_read(&rt, rt.alloc(), "8800005a K G", ONE)?;
    is_read(&rt, rt.alloc(), TWO_CHAINS, BOTH)
}

/// Each part of a chain's index.
fn show_index(alloc: Global, shown: &mut String, chain: &ChainView<'_>) -> Result<(), Fail> {
    for part in chain.index() {
        push(alloc, shown, part)?;
    }
    Ok(())
}

/// Of each link the side, the correction, the sibling and whether it is raw.
fn show_links(alloc: Global, shown: &mut String, links: &[LinkView<'_>]) -> Result<(), Fail> {
    for link in links {
        let sibling = (link.sibling, link.raw);
        push(alloc, shown, (link.side, link.correction, sibling))?;
    }
    Ok(())
}

/// A chain's time, whether its input is the hash of no bytes, how many parts its index has and the last of them, and its input
/// body; then the parts and the links.
fn show_chain(alloc: Global, shown: &mut String, chain: &ChainView<'_>) -> Result<(), Fail> {
    let index = (chain.parts(), chain.last_part());
    let input = (chain.input() == hash(), chain.input_body());
    push(alloc, shown, (chain.time(), index, input))?;
    show_index(alloc, shown, chain)?;
    show_links(alloc, shown, chain.links().as_slice())
}

/// Both times of a calendar chain, and whether its input is the hash of no bytes; then the same of each link's sibling behind
/// its side.
fn show_calendar(alloc: Global, shown: &mut String, chain: &CalendarView<'_>) -> Result<(), Fail> {
    let input = chain.input() == hash();
    push(alloc, shown, (chain.publication(), chain.time(), input))?;
    for link in chain.links().as_slice() {
        push(alloc, shown, (link.side, link.sibling == hash()))?;
    }
    Ok(())
}

/// The calendar chain and the publication record, each where it is there.
fn show_others(alloc: Global, shown: &mut String, view: &SignatureView<'_>) -> Result<(), Fail> {
    if let Some(chain) = view.calendar() {
        show_calendar(alloc, shown, &chain)?;
    }
    match view.publication() {
        Some(record) => push(alloc, shown, (record.time(), record.hash() == hash())),
        None => Ok(()),
    }
}

fn shows(rt: &impl Abort, alloc: Global, view: &SignatureView<'_>, want: &str) -> Result<(), Fail> {
    let mut shown = String::new(alloc);
    for chain in view.chains() {
        show_chain(alloc, &mut shown, chain)?;
    }
    show_others(alloc, &mut shown, view)?;
    same_text(rt, "shown", shown.as_str(), want);
    Ok(())
}

const SHOWN: &str = "(5, (2, 0), (true, Some([97, 98, 99])))
300
0
(Left, 2, ([255], true))
(Right, 0, ([1, 2], true))
(0, (1, 1), (true, None))
1
(9, 9, true)
(Left, true)
(9, true)
";

#[test]
fn each_element_is_shown(rt: HostRuntime) -> Result<(), Fail> {
    let text = bytes(rt.alloc(), TWO_CHAINS)?;
    match view(text.as_slice()) {
        Ok(view) => shows(&rt, rt.alloc(), &view, SHOWN),
        Err(_) => Err(Fail::from("it is not lent")),
    }
}
