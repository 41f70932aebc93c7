// How facts are spelled.
ghost use Rattle.std.specs.Prelude.{◌≡◌, ◌<◌, ◌^◌, ◌++◌, ◌∷◌, [], map, IfOk, OnOk};
ghost use Rattle.ksi_aggregator.specs.Events.{event_second};
ghost use Rattle.ksi_aggregator.specs.declared.fact.RoundFact.TheVariants.{Closed};
ghost use Rattle.ksi_roundstore.specs.Texts.{event_of, lines_of, what_text};

use ksi_aggregator::RoundEvent;
use ksi_aggtree::{Entry, Origin};
use ksi_imprint::NoMemory;
use ksi_wire::put_round_event;
use std::alloc::Global;

/// The text of the fact that a round of a second is closed with these items.
pub(crate) fn closed_text(
    alloc: Global,
    second: u64,
    entries: &[Entry],
) -> Result<Vec<u8>, NoMemory>
    requires { second < 2 ^ 63 }
    ensures { IfOk result (λ text. text.items ≡ what_text second (Closed entries.now)) }
{
    let mut text = Vec::new(alloc);
    put_entries(alloc, &mut text, second, entries)?;
    put_line(alloc, &mut text, &RoundEvent::Close(second))?;
    Ok(text)
}

/// The line of an event.
pub(crate) fn line_text(alloc: Global, event: &RoundEvent) -> Result<Vec<u8>, NoMemory>
    requires { event_second event.now < 2 ^ 63 }
    ensures { IfOk result (λ text. text.items ≡ lines_of (event.now ∷ [])) }
{
    let mut text = Vec::new(alloc);
    put_line(alloc, &mut text, event)?;
    Ok(text)
}

fn put_line(alloc: Global, text: &mut Vec<u8>, event: &RoundEvent) -> Result<(), NoMemory>
    requires { event_second event.now < 2 ^ 63 }
    ensures { OnOk result (text.new.items ≡ text.old.items ++ lines_of (event.now ∷ [])) }
{
    put_round_event(alloc, text, event)?;
    text.push(b'\n')?;
    Ok(())
}

fn put_entries(
    alloc: Global,
    text: &mut Vec<u8>,
    second: u64,
    entries: &[Entry],
) -> Result<(), NoMemory>
    requires { second < 2 ^ 63 }
    ensures { OnOk result (text.new.items ≡ text.old.items ++ lines_of (map (event_of second) entries.now)) }
{
    for entry in entries {
        put_line(alloc, text, &event_of(second, entry))?;
    }
    Ok(())
}

/// What brought an item to a round.
fn event_of(second: u64, entry: &Entry) -> RoundEvent
    ensures event { result ≡ event_of second entry.now }
    ensures second { event_second result ≡ second }
{
    match entry.origin {
        Origin::Request(number) => {
            RoundEvent::Request(number, second, entry.item.imprint, entry.item.name)
        }
        Origin::Aggregator(from) => RoundEvent::Submission(from, second, entry.item),
    }
}
