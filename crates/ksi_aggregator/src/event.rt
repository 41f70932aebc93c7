//! An aggregator's calls as values, and the one call that takes them.
ghost use Rattle.std.specs.Prelude.{◌≡◌, ◌<◌, ◌^◌, IfOk, OnErr};
ghost use Rattle.ksi_aggregator.specs.Events.{event_second, MayTake, round_row};
ghost use Rattle.ksi_aggregator.specs.Rounds.{rounds_of, SameRounds, IsTurn};

use crate::aggregator::Aggregator;
use crate::step::Step;
use ksi_aggtree::{Item, Name};
use ksi_imprint::{Compress, Imprint, NoMemory};
use ksi_signature::Above;

/// What comes to an aggregator, but for a restart: each is one of its calls, with that call's arguments in order.
#[derive(Drop)]
pub enum RoundEvent {
    /// The request of a number for a second, perhaps with a name.
    Request(u64, u64, Imprint, Option<Name>),
    /// An aggregator submits an item for a second.
    Submission(u32, u64, Item),
    /// The round of a second is closed.
    Close(u64),
    /// The response to the round of a second comes.
    Response(u64, Above),
}

impl<C: Compress> Aggregator<C> {
    /// Takes an event of a second before 2^63 by the call that it is, under that call's condition.
    ///
    /// # Errors
    /// `NoMemory`: all is as it was.
    pub fn take(&mut self, event: RoundEvent) -> Result<Step, NoMemory>
        requires may { MayTake (rounds_of self.old) event }
        requires early { event_second event < 2 ^ 63 }
        ensures me { self.new.me ≡ self.old.me }
        ensures turn { IfOk result (IsTurn (rounds_of self.old) (rounds_of self.new) (event_second event) (round_row C.image event (rounds_of self.old (event_second event)))) }
        ensures unchanged { OnErr result (SameRounds (rounds_of self.old) (rounds_of self.new)) }
    {
        match event {
            RoundEvent::Request(number, second, imprint, name) => {
                self.request(number, second, imprint, name)
            }
            RoundEvent::Submission(from, second, item) => self.submission(from, second, item),
            RoundEvent::Close(second) => self.close(second),
            RoundEvent::Response(second, above) => self.response(second, &above),
        }
    }
}
