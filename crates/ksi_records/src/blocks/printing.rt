//! Numbers, nodes and places as words.
ghost use Rattle.std.specs.Prelude.{◌≡◌, ◌++◌, OnOk};
ghost use Rattle.std.specs.Fmt.{decimal};
ghost use Rattle.ksi_records.specs.Blocks.{place_words};
ghost use Rattle.ksi_schedule.specs.Printed.{actor_word, spaced};

use crate::blocks::place::Place;
use itoa::Buffer;
use ksi_schedule::{Actor, NoMemory};

/// A number in decimal.
pub(crate) fn put_number(text: &mut Vec<u8>, n: u64) -> Result<(), NoMemory>
    ensures { OnOk result (text.new.items ≡ text.old.items ++ decimal n) }
{
    let mut digits = Buffer::new();
    text.extend_from_slice(digits.format(n).as_bytes())
}

/// The word of a node.
pub(crate) fn put_node(text: &mut Vec<u8>, actor: Actor) -> Result<(), NoMemory>
    ensures { OnOk result (text.new.items ≡ text.old.items ++ actor_word actor) }
{
    let (letter, number) = match actor {
        Actor::Core(j) => (b'c', u64::from(j)),
        Actor::Aggregator(k) => (b'a', u64::from(k)),
    };
    text.push(letter)?;
    put_number(text, number)
}

/// The words of a place, each after a space.
pub(crate) fn put_place(text: &mut Vec<u8>, place: Place) -> Result<(), NoMemory>
    ensures { OnOk result (text.new.items ≡ text.old.items ++ spaced (place_words place)) }
{
    text.push(b' ')?;
    put_number(text, place.entry)?;
    text.push(b' ')?;
    put_number(text, place.line)
}
