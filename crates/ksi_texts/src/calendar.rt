// The rows of a calendar chain and of a publication record.
ghost use Rattle.std.specs.Prelude.{◌≡◌, ◌++◌, ◌∷◌, [], length, option_map, OnOk};
ghost use Rattle.ksi_schedule.specs.Printed.{text_of_lines};
ghost use Rattle.ksi_signature.specs.PartsSeen.{calendar_seen, record_seen};
ghost use Rattle.ksi_texts.specs.Calendar.{calendar_head, calendar_rows, chain_rows, end_rows, leaf_row, leaf_rows, published_rows, record_rows};

use crate::chains::side_word;
use crate::printing::put;
use crate::word::Word::{Digest, Number, Second, Short, Text};
use ksi_calendar::{CalendarLink, climb_calendar, second};
use ksi_imprint::{Imprint, NoMemory, Sha};
use ksi_signature::{CalendarView, RecordView};
use ksi_split::ShapeFault;
use std::slice;

/// The rows of a calendar chain, or one row if there is none.
pub(crate) fn put_calendar(
    text: &mut Vec<u8>,
    calendar: &Option<CalendarView<'_>>,
) -> Result<(), NoMemory>
    ensures { OnOk result (text.new.items ≡ text.old.items ++ text_of_lines (calendar_rows (option_map calendar_seen calendar.now))) }
{
    match calendar {
        Some(calendar) => put_chain(text, calendar),
        None => put(text, &[Text("no calendar chain yet")]),
    }
}

fn put_chain(text: &mut Vec<u8>, calendar: &CalendarView<'_>) -> Result<(), NoMemory>
    ensures { OnOk result (text.new.items ≡ text.old.items ++ text_of_lines (chain_rows (calendar_seen calendar.now))) }
{
    let links = calendar.links();
    let links = links.as_slice();
    let publication = calendar.publication();
    let input = calendar.input();
    put_head(text, links.len(), calendar.time(), publication)?;
    put(text, &[Text("  begins with"), Digest(&input)])?;
    put_links(text, input, links)?;
    put_end(
        text,
        &climb_calendar::<Sha>(input, links),
        second(publication, links),
    )
}

fn put_head(text: &mut Vec<u8>, links: usize, time: u64, publication: u64) -> Result<(), NoMemory>
    ensures { OnOk result (text.new.items ≡ text.old.items ++ text_of_lines (calendar_head links time publication ∷ [])) }
{
    let words = [
        Text("calendar chain with"),
        Number(links as u64),
        Text("links, from second"),
        Second(time),
        Text("to"),
        Second(publication),
    ];
    put(text, &words)
}

/// A row for each link, from an imprint up.
fn put_links(text: &mut Vec<u8>, start: Imprint, links: &[CalendarLink]) -> Result<(), NoMemory>
    ensures { OnOk result (text.new.items ≡ text.old.items ++ text_of_lines (leaf_rows 0 start links.now)) }
{
    let mut node = start;
    for (place, link) in links.iter().enumerate() {
        node = climb_calendar::<Sha>(node, slice::from_ref(link));
        put_link(text, place, link, &node)?;
    }
    Ok(())
}

fn put_link<'a>(
    text: &mut Vec<u8>,
    place: usize,
    link: &'a CalendarLink,
    above: &'a Imprint,
) -> Result<(), NoMemory>
    ensures { OnOk result (text.new.items ≡ text.old.items ++ text_of_lines (leaf_row place above.now link.now ∷ [])) }
{
    let words = [
        Text("  link"),
        Number(place as u64),
        Text(side_word(link.side)),
        Text("hash"),
        Short(link.sibling.bytes()),
        Text("makes"),
        Short(above.bytes()),
    ];
    put(text, &words)
}

/// The root that links lead to, and the second that their sides name.
fn put_end(
    text: &mut Vec<u8>,
    root: &Imprint,
    named: Result<u64, ShapeFault>,
) -> Result<(), NoMemory>
    ensures { OnOk result (text.new.items ≡ text.old.items ++ text_of_lines (end_rows root.now named)) }
{
    put(text, &[Text("  ends with"), Digest(root)])?;
    match named {
        Ok(second) => put(text, &[Text("  its sides name second"), Second(second)]),
        Err(_) => put(text, &[Text("  its sides name no second")]),
    }
}

/// The rows of a publication record, or one row if there is none.
pub(crate) fn put_record(
    text: &mut Vec<u8>,
    published: &Option<RecordView<'_>>,
) -> Result<(), NoMemory>
    ensures { OnOk result (text.new.items ≡ text.old.items ++ text_of_lines (record_rows (option_map record_seen published.now))) }
{
    match published {
        Some(published) => put_published(text, published.time(), &published.hash()),
        None => put(text, &[Text("no publication record")]),
    }
}

fn put_published(text: &mut Vec<u8>, time: u64, hash: &Imprint) -> Result<(), NoMemory>
    ensures { OnOk result (text.new.items ≡ text.old.items ++ text_of_lines (published_rows time hash.now)) }
{
    put(text, &[Text("publication record of second"), Second(time)])?;
    put(text, &[Text("  root"), Digest(hash)])
}
