//! The ten steps of a second.
ghost use Rattle.std.specs.Prelude.{◌≡◌, ◌<◌, ◌≤◌, IfOk, OnOk};
ghost use Rattle.ksi_schedule.specs.Plans.{InRange};
ghost use Rattle.ksi_replay.specs.Making.{draw, times};
ghost use Rattle.ksi_replay.specs.Generate.{enough, header, request, requests, close, closes, seals, first_ballot, core_restarts, core_may_restart, second_ballot, responses, aggregator_restarts, aggregator_may_restart, publishes, may_publish, steps_of};

use crate::maker::Maker;
use crate::manner::Manner;
use ksi_imprint::NoMemory;
use ksi_schedule::Event;

impl Maker {
    /// All ten steps of the second that is number `i`.
    ///
    /// # Errors
    /// `NoMemory`.
    #[tactic(auto, unfolding(crate::specs::Generate::steps_of))]
    pub(crate) fn steps_of(&mut self, i: u64, second: u64) -> Result<(), NoMemory>
        requires { InRange header second }
        ensures { OnOk result (self.new ≡ (steps_of enough i second self.old).1) }
    {
        self.requests(second)?;
        self.closes(second)?;
        self.seals(second)?;
        let core = self.first_ballot(second)?;
        self.core_may_restart()?;
        self.second_ballot(core, second)?;
        self.happen_and_deliver(Event::Tell(core, second))?;
        self.responses(second)?;
        self.aggregator_may_restart()?;
        self.may_publish(i, second)
    }

    #[tactic(auto, unfolding(crate::specs::Generate::requests))]
    fn requests(&mut self, second: u64) -> Result<(), NoMemory>
        requires { InRange header second }
        ensures { OnOk result (self.new ≡ (requests second self.old).1) }
    {
        let count = self.draw(9);
        self.repeated(count, second)
    }

    #[tactic(auto, using(crate::proofs::Loops::times_next))]
    fn repeated(&mut self, count: u64, second: u64) -> Result<(), NoMemory>
        requires { InRange header second }
        ensures { OnOk result (self.new ≡ (times count (request second) self.old).1) }
    {
        'requests: for _request in 0..count {
            self.request(second)?;
        }
        Ok(())
    }

    #[tactic(auto, unfolding(crate::specs::Generate::request))]
    fn request(&mut self, second: u64) -> Result<(), NoMemory>
        requires { InRange header second }
        ensures { OnOk result (self.new ≡ (request second self.old).1) }
    {
        let aggregator = self.draw(6);
        let imprint = self.digest();
        self.happen(Event::Request(aggregator as u32, second, imprint, None))
    }

    #[tactic(auto, unfolding(crate::specs::Generate::closes))]
    fn closes(&mut self, second: u64) -> Result<(), NoMemory>
        requires { InRange header second }
        ensures { OnOk result (self.new ≡ (closes second self.old).1) }
    {
        self.close(5, second)?;
        self.close(3, second)?;
        self.close(4, second)?;
        self.close(0, second)?;
        self.close(1, second)?;
        self.close(2, second)
    }

    /// An aggregator's round is closed, and its submission is delivered where one was sent.
    #[tactic(auto, unfolding(crate::specs::Generate::close))]
    fn close(&mut self, aggregator: u32, second: u64) -> Result<(), NoMemory>
        requires there { aggregator < 6 }
        requires second { InRange header second }
        ensures { OnOk result (self.new ≡ (close aggregator second self.old).1) }
    {
        let first = self.messages();
        self.happen(Event::Close(aggregator, second))?;
        if first < self.messages() {
            self.happen(Event::Deliver(first))?;
        }
        Ok(())
    }

    #[tactic(auto, unfolding(crate::specs::Generate::seals))]
    fn seals(&mut self, second: u64) -> Result<(), NoMemory>
        requires { InRange header second }
        ensures { OnOk result (self.new ≡ (seals second self.old).1) }
    {
        self.happen(Event::Seal(0, second))?;
        self.happen(Event::Seal(1, second))?;
        self.happen(Event::Seal(2, second))
    }

    /// Answers the core that tried the ballot.
    #[tactic(auto, unfolding(crate::specs::Generate::first_ballot))]
    fn first_ballot(&mut self, second: u64) -> Result<u8, NoMemory>
        requires { InRange header second }
        ensures after { OnOk result (self.new ≡ (first_ballot enough second self.old).1) }
        ensures core { IfOk result (λ core. core ≡ (first_ballot enough second self.old).0) }
        ensures there { IfOk result (λ core. core < 3) }
    {
        let core = self.draw(3) as u8;
        let first = self.messages();
        self.happen(Event::Ballot(core, second))?;
        self.delivers(Manner::Drawn, first)?;
        Ok(core)
    }

    #[tactic(auto, unfolding(crate::specs::Generate::core_may_restart))]
    fn core_may_restart(&mut self) -> Result<(), NoMemory>
        ensures { OnOk result (self.new ≡ (core_may_restart self.old).1) }
    {
        if self.draw(4) == 0 {
            self.core_restarts()?;
        }
        Ok(())
    }

    #[tactic(auto, unfolding(crate::specs::Generate::core_restarts))]
    fn core_restarts(&mut self) -> Result<(), NoMemory>
        ensures { OnOk result (self.new ≡ (core_restarts self.old).1) }
    {
        let core = self.draw(3) as u8;
        self.happen(Event::RestartCore(core))
    }

    #[tactic(auto, unfolding(crate::specs::Generate::second_ballot))]
    fn second_ballot(&mut self, core: u8, second: u64) -> Result<(), NoMemory>
        requires there { core < 3 }
        requires second { InRange header second }
        ensures { OnOk result (self.new ≡ (second_ballot enough core second self.old).1) }
    {
        if !self.holds(core, second) {
            self.happen_and_deliver(Event::Ballot(core, second))?;
        }
        Ok(())
    }

    #[tactic(auto, unfolding(crate::specs::Generate::responses))]
    fn responses(&mut self, second: u64) -> Result<(), NoMemory>
        requires { InRange header second }
        ensures { OnOk result (self.new ≡ (responses enough second self.old).1) }
    {
        self.happen_and_deliver(Event::Respond(0, second))?;
        self.happen_and_deliver(Event::Respond(1, second))?;
        self.happen_and_deliver(Event::Respond(2, second))
    }

    #[tactic(auto, unfolding(crate::specs::Generate::aggregator_may_restart))]
    fn aggregator_may_restart(&mut self) -> Result<(), NoMemory>
        ensures { OnOk result (self.new ≡ (aggregator_may_restart self.old).1) }
    {
        if self.draw(8) == 0 {
            self.aggregator_restarts()?;
        }
        Ok(())
    }

    #[tactic(auto, unfolding(crate::specs::Generate::aggregator_restarts))]
    fn aggregator_restarts(&mut self) -> Result<(), NoMemory>
        ensures { OnOk result (self.new ≡ (aggregator_restarts self.old).1) }
    {
        let aggregator = self.draw(6) as u32;
        self.happen(Event::RestartAggregator(aggregator))
    }

    #[tactic(auto, unfolding(crate::specs::Generate::may_publish))]
    fn may_publish(&mut self, i: u64, second: u64) -> Result<(), NoMemory>
        requires { InRange header second }
        ensures { OnOk result (self.new ≡ (may_publish i second self.old).1) }
    {
        if i % 16 == 15 {
            self.publishes(second)?;
        }
        Ok(())
    }

    #[tactic(auto, unfolding(crate::specs::Generate::publishes))]
    fn publishes(&mut self, second: u64) -> Result<(), NoMemory>
        requires { InRange header second }
        ensures { OnOk result (self.new ≡ (publishes second self.old).1) }
    {
        let core = self.draw(3) as u8;
        self.happen(Event::Publish(core, second))
    }
}
