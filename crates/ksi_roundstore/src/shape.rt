// Which events make a fact.
ghost use Rattle.std.specs.Prelude.{◌≡◌};
ghost use Rattle.std.specs.List.{list_all};
ghost use Rattle.ksi_roundstore.specs.Facts.{is_item_of, is_last_behind, IsMade};

use ksi_aggregator::RoundEvent;

/// Whether these are the events of a fact: those of the items of a round and its closing, or a response alone.
pub(crate) fn is_fact(events: &[RoundEvent]) -> bool
    ensures { IsMade events.now result }
{
    match events.split_last() {
        None => false,
        Some((last, items)) => is_last_behind(items, last),
    }
}

/// Whether this is the last event of a fact, behind these.
fn is_last_behind(items: &[RoundEvent], last: &RoundEvent) -> bool
    ensures { result ≡ is_last_behind items.now last.now }
{
    match last {
        RoundEvent::Close(second) => are_items_of(*second, items),
        RoundEvent::Response(_, _) => items.is_empty(),
        RoundEvent::Request(_, _, _, _) => false,
        RoundEvent::Submission(_, _, _) => false,
    }
}

/// Whether each brings an item to the round of a second.
fn are_items_of(second: u64, events: &[RoundEvent]) -> bool
    ensures { result ≡ list_all (is_item_of second) events.now }
{
    events.iter().all(|event| is_item_of(second, event))
}

/// Whether it brings an item to the round of a second.
fn is_item_of(second: u64, event: &RoundEvent) -> bool
    ensures { result ≡ is_item_of second event.now }
{
    match event {
        RoundEvent::Request(_, t, _, _) => *t == second,
        RoundEvent::Submission(_, t, _) => *t == second,
        RoundEvent::Close(_) => false,
        RoundEvent::Response(_, _) => false,
    }
}
