//! What a message of the wire asks of its addressee.
ghost use Rattle.std.specs.Prelude.{◌≡◌};
ghost use Rattle.ksi_world.specs.Letters.{letter_of, vote_of, item_of};

use crate::message::{Content, LentMessage};
use ksi_aggtree::Item;
use ksi_schedule::Actor;
use ksi_synod::SynodMessage;

/// A message without what it carries of chains.
#[derive(Clone, Copy)]
pub(crate) enum Letter {
    /// A message of the vote, from a core to a core.
    Vote(u8, u8, SynodMessage),
    /// An item, from an aggregator to a core.
    ToCore(u32, u8, Item),
    /// An item, from an aggregator to another.
    ToAggregator(u32, u32, Item),
    /// A response, to an aggregator.
    Response(u32),
    /// One that nobody sends.
    None,
}

/// What the message is.
pub(crate) fn letter_of(message: &LentMessage<'_>) -> Letter
    ensures { result ≡ letter_of message.now.sender message.now.addressee message.now.content.now }
{
    match message.content {
        Content::Synod(vote) => vote_of(message.sender, message.addressee, vote),
        Content::Submission(item) => item_of(message.sender, message.addressee, item),
        Content::Response(_) => match message.addressee {
            Actor::Core(_) => Letter::None,
            Actor::Aggregator(to) => Letter::Response(to),
        },
    }
}

fn vote_of(sender: Actor, addressee: Actor, vote: &SynodMessage) -> Letter
    ensures { result ≡ vote_of sender addressee vote.now }
{
    match sender {
        Actor::Aggregator(_) => Letter::None,
        Actor::Core(from) => match addressee {
            Actor::Aggregator(_) => Letter::None,
            Actor::Core(to) => Letter::Vote(from, to, *vote),
        },
    }
}

fn item_of(sender: Actor, addressee: Actor, item: &Item) -> Letter
    ensures { result ≡ item_of sender addressee item.now }
{
    match sender {
        Actor::Core(_) => Letter::None,
        Actor::Aggregator(from) => match addressee {
            Actor::Core(to) => Letter::ToCore(from, to, *item),
            Actor::Aggregator(to) => Letter::ToAggregator(from, to, *item),
        },
    }
}
