ghost use Rattle.std.specs.Prelude.{◌≡◌, ◌<◌, OnOk};
ghost use Rattle.ksi_schedule.specs.Events.{IsEvent};
ghost use Rattle.ksi_replay.specs.Making.{happen, messages, times};
ghost use Rattle.ksi_replay.specs.Generate.{copies, delivered, delivers, enough, happen_and_deliver, header};

use crate::maker::Maker;
use crate::manner::Manner;
use ksi_imprint::NoMemory;
use ksi_schedule::Event;

/// No event leads to more messages.
const ENOUGH: u32 = 549;

impl Maker {
    /// An event, and then each message that was sent since is delivered once.
    ///
    /// # Errors
    /// `NoMemory`.
    #[tactic(auto, unfolding(crate::specs::Generate::happen_and_deliver))]
    pub(crate) fn happen_and_deliver(&mut self, event: Event) -> Result<(), NoMemory>
        requires { IsEvent header event }
        ensures { OnOk result (self.new ≡ (happen_and_deliver enough event self.old).1) }
    {
        let first = self.messages();
        self.happen(event)?;
        self.delivers(Manner::Once, first)
    }

    /// Each message from this number on is delivered, in order of number, those that this sends included, until none is
    /// left. The definition looks at no more than `ENOUGH`, which no number comes to.
    ///
    /// # Errors
    /// `NoMemory`.
    pub(crate) fn delivers(&mut self, manner: Manner, first: u64) -> Result<(), NoMemory>
        ensures { OnOk result (self.new ≡ (delivers enough manner first self.old).1) }
    {
        let mut number = first;
        let mut left = ENOUGH;
        'messages: while left > 0 && number < self.messages() {
            self.delivered(manner, number)?;
            number += 1;
            left -= 1;
        }
        Ok(())
    }

    /// A message is delivered.
    fn delivered(&mut self, manner: Manner, number: u64) -> Result<(), NoMemory>
        ensures { OnOk result (self.new ≡ (delivered manner number self.old).1) }
    {
        match manner {
            Manner::Once => self.happen(Event::Deliver(number)),
            Manner::Drawn => {
                let k = self.draw(8);
                self.repeat(copies(k), number)
            }
        }
    }

    /// A message is delivered this many times in a row.
    fn repeat(&mut self, count: u8, number: u64) -> Result<(), NoMemory>
        ensures { OnOk result (self.new ≡ (times count (happen (Event.Deliver number)) self.old).1) }
    {
        'copies: for _copy in 0..count {
            self.happen(Event::Deliver(number))?;
        }
        Ok(())
    }
}

/// How often a message of this draw is delivered.
fn copies(k: u64) -> u8
    ensures { result ≡ copies k }
{
    match k {
        0 => 0,
        1 => 2,
        _ => 1,
    }
}
