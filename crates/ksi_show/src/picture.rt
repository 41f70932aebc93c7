// The picture of a signature, as SVG: the document's hash at the bottom, and the root that it leads to at the top.
use crate::drawing::{
    Above, HIGH, MIDDLE, behind_field, draw_alone, draw_beside, draw_field, draw_row, fill, space,
};
use crate::spans::{Span, span_beside};
use ksi_aggtree::chains::{LinkView, Node, climb_link};
use ksi_calendar::{CalendarLink, climb_calendar};
use ksi_imprint::{Imprint, NoMemory, Sha};
use ksi_signature::{CalendarView, ChainView, SignatureView};
use ksi_split::Side;
use ksi_texts::Word::{self, Number, Quoted, Second, Short, Text};
use ksi_texts::name_in;
use std::slice;

const STYLE: &str =
    "<style>text{font:12.5px ui-monospace,'DejaVu Sans Mono',monospace;fill:#1d2433}.dim,.head{font-family:system-ui,'DejaVu Sans',sans-serif;font-size:12px;fill:#5a647d}.head{font-weight:600;font-size:13px}rect{fill:#fff;stroke:#c9d0de}.ours{fill:#e6edfc;stroke:#2456c4;stroke-width:1.6}.field{fill:#f3f5f9;stroke:none}path{stroke:#c9d0de;stroke-width:1.6}.way{stroke:#2456c4;stroke-width:2.2}</style>";

/// The picture of a signature.
pub(crate) fn draw_signature(
    text: &mut Vec<u8>,
    signature: &SignatureView<'_>,
) -> Result<(), NoMemory> {
    let chains = signature.chains();
    let calendar = signature.calendar();
    let high = height(chains, &calendar);
    fill(
        text,
        "<svg xmlns=\"http://www.w3.org/2000/svg\" viewBox=\"0 0 940 #\" width=\"940\">",
        &[high],
    )?;
    text.extend_from_slice(STYLE.as_bytes())?;
    fill(
        text,
        "<rect width=\"940\" height=\"#\"/><g transform=\"translate(0 #)\">\n",
        &[high, high],
    )?;
    draw_chains(text, chains, &calendar)?;
    text.extend_from_slice(b"</g></svg>\n")
}

/// How high the picture is.
fn height(chains: &[ChainView<'_>], calendar: &Option<CalendarView<'_>>) -> u64 {
    let mut high = match calendar {
        Some(calendar) => space(calendar.links().as_slice().len()),
        None => 0,
    };
    for chain in chains {
        high = high.saturating_add(space(chain.links().as_slice().len()));
    }
    high.saturating_add(150)
}

/// The document's hash, the fields of the chains above it, and what is above these.
fn draw_chains(
    text: &mut Vec<u8>,
    chains: &[ChainView<'_>],
    calendar: &Option<CalendarView<'_>>,
) -> Result<(), NoMemory> {
    let mut node = Node {
        imprint: match chains.first() {
            Some(lowest) => lowest.input(),
            None => Imprint::ZERO,
        },
        level: 0,
    };
    let start = Above {
        up: 40,
        below: 40,
        ours: MIDDLE,
        beside: None,
    };
    let mut at = draw_alone(
        text,
        start,
        node.imprint.bytes(),
        &[Text("hash of the document")],
    )?;
    for (k, chain) in chains.iter().enumerate() {
        let (next, top) = draw_chain(text, at, k, node.level, chain)?;
        at = next;
        node = top;
    }
    match calendar {
        Some(calendar) => draw_calendar(text, at, calendar),
        None => {
            let note = [Text("root, with no calendar chain yet")];
            draw_root(text, at, &node.imprint, &note)
        }
    }
}

/// The field of a chain from a level, and the node that it leads to.
fn draw_chain(
    text: &mut Vec<u8>,
    at: Above,
    k: usize,
    level: u8,
    chain: &ChainView<'_>,
) -> Result<(Above, Node), NoMemory> {
    let links = chain.links();
    let links = links.as_slice();
    let time = chain.time();
    let heading = [
        Text("chain "),
        Number(k as u64),
        Text(", second "),
        Number(time),
    ];
    let start = draw_field(text, at, links.len(), &heading, time)?;
    let node = Node {
        imprint: chain.input(),
        level,
    };
    let (end, top) = draw_links(text, start, node, links)?;
    Ok((behind_field(at, end, links.len()), top))
}

/// The rows of links from a node, up to the first whose level passes 255, and the node that they lead to.
fn draw_links(
    text: &mut Vec<u8>,
    at: Above,
    start: Node,
    links: &[LinkView<'_>],
) -> Result<(Above, Node), NoMemory> {
    let mut at = at;
    let mut node = start;
    for (place, link) in links.iter().enumerate() {
        at = draw_link(text, at, &node, link)?;
        match climb_link::<Sha, LinkView<'_>>(node, place, link) {
            Ok(above) => node = above,
            Err(_) => return Ok((at, Node { level: 255, ..node })),
        }
    }
    Ok((at, node))
}

fn draw_link(
    text: &mut Vec<u8>,
    at: Above,
    node: &Node,
    link: &LinkView<'_>,
) -> Result<Above, NoMemory> {
    let bytes = node.imprint.bytes();
    if !link.raw {
        return draw_row(text, at, link.side, bytes, Short(link.sibling));
    }
    let note = match name_in(link.sibling) {
        Some(name) => [Text("name "), Quoted(name)],
        None => [Text("bytes "), Quoted(link.sibling)],
    };
    draw_beside(text, link.side, at.up, &note)?;
    draw_row(text, at, link.side, bytes, Text("raw bytes"))
}

/// The field of a calendar chain, and the root above it.
fn draw_calendar(
    text: &mut Vec<u8>,
    at: Above,
    calendar: &CalendarView<'_>,
) -> Result<(), NoMemory> {
    let links = calendar.links();
    let links = links.as_slice();
    let input = calendar.input();
    let publication = calendar.publication();
    let time = calendar.time();
    let heading = [Text("calendar chain, from second "), Number(time)];
    let start = draw_field(text, at, links.len(), &heading, time)?;
    let end = draw_leaves(text, start, input, publication, links)?;
    let note = [Text("root to second "), Second(publication)];
    draw_root(
        text,
        behind_field(at, end, links.len()),
        &climb_calendar::<Sha>(input, links),
        &note,
    )
}

fn draw_root(
    text: &mut Vec<u8>,
    at: Above,
    root: &Imprint,
    note: &[Word<'_>],
) -> Result<(), NoMemory> {
    let up = at.up.saturating_add(HIGH);
    draw_alone(text, Above { up, ..at }, root.bytes(), note)?;
    Ok(())
}

/// The rows of calendar links from an imprint, each with the seconds that stand beside it.
fn draw_leaves(
    text: &mut Vec<u8>,
    at: Above,
    start: Imprint,
    publication: u64,
    links: &[CalendarLink],
) -> Result<Above, NoMemory> {
    let mut at = at;
    let mut node = start;
    for (place, link) in links.iter().enumerate() {
        let span = span_beside(publication, links.split_at(place).1);
        draw_span(text, link.side, at.up, span)?;
        at = draw_row(
            text,
            at,
            link.side,
            node.bytes(),
            Short(link.sibling.bytes()),
        )?;
        node = climb_calendar::<Sha>(node, slice::from_ref(link));
    }
    Ok(at)
}

fn draw_span(text: &mut Vec<u8>, side: Side, up: u64, span: Option<Span>) -> Result<(), NoMemory> {
    match span {
        Some(span) => {
            let note = [
                Text("seconds "),
                Number(span.first),
                Text(" to "),
                Number(span.last),
            ];
            draw_beside(text, side, up, &note)
        }
        None => Ok(()),
    }
}
