ghost use Rattle.std.specs.Prelude.{◌≡◌, ◌<◌, ◌^◌, IfOk, OnOk};
ghost use Rattle.ksi_schedule.specs.Events.{IsEvent, AreEvents};
ghost use Rattle.ksi_replay.specs.Making.{draw, digest, happen, messages, holds};
ghost use Rattle.ksi_replay.specs.Generate.{header, first_making};

use crate::plan::header;
use crate::stream::Stream;
use ksi_imprint::{Imprint, NoMemory, Sha};
use ksi_schedule::{Event, Events, Plan};
use ksi_world::World;
use std::alloc::Global;
use std::marker::Model;

/// A schedule in the making: the stream of bytes that all choices come from, and the world that the events so far made.
#[derive(Drop)]
pub(crate) struct Maker {
    stream: Stream,
    world: World<Sha>,
}

impl Model for Maker {
    ghost use Rattle.std.specs.Prelude.{◌≡◌};
    ghost use Rattle.ksi_replay.specs.Making.{Making};
    ghost use Rattle.ksi_replay.specs.Generate.{header};

    ghost Value = { Making };

    ghost view = { λ m. record { place = m.stream; history = m.world } };

    ghost invariant = { λ m. m.world.plan ≡ header };
}

impl Maker {
    /// Nothing has happened yet.
    ///
    /// # Errors
    /// `NoMemory`.
    pub(crate) fn new(alloc: Global, number: u64) -> Result<Maker, NoMemory>
        ensures { IfOk result (λ maker. maker ≡ first_making (2 ^ 64) number) }
    {
        let plan = header(alloc)?;
        let world = World::new(alloc, &plan)?;
        Ok(Maker {
            stream: Stream::new(number),
            world,
        })
    }

    /// The next eight bytes as a number, modulo this one.
    #[tactic(auto, unfolding(crate::specs::Making::draw))]
    pub(crate) fn draw(&mut self, modulo: u64) -> u64
        requires { 0 < modulo }
        ensures drawn { result ≡ (draw modulo self.old).0 }
        ensures place { self.new ≡ (draw modulo self.old).1 }
        ensures below { result < modulo }
    {
        let mut bytes = [0; 8];
        self.stream.fill(&mut bytes);
        u64::from_be_bytes(bytes) % modulo
    }

    /// The next 32 bytes as a digest.
    #[tactic(auto, unfolding(crate::specs::Making::digest))]
    pub(crate) fn digest(&mut self) -> Imprint
        ensures digest { result ≡ (digest self.old).0 }
        ensures place { self.new ≡ (digest self.old).1 }
    {
        let mut bytes = [0; 32];
        self.stream.fill(&mut bytes);
        Imprint::of_digest(&bytes)
    }

    /// An event of the plan.
    ///
    /// # Errors
    /// `NoMemory`.
    pub(crate) fn happen(&mut self, event: Event) -> Result<(), NoMemory>
        requires { IsEvent header event }
        ensures { OnOk result (self.new ≡ (happen event self.old).1) }
    {
        match self.world.step(event) {
            Ok(_) => Ok(()),
            Err(fault) => Err(fault),
        }
    }

    /// How many messages were sent so far.
    pub(crate) fn messages(&self) -> u64
        ensures { result ≡ (messages self.now).0 }
    {
        self.world.wire().len() as u64
    }

    /// Whether a core holds something for a second.
    pub(crate) fn holds(&self, core: u8, second: u64) -> bool
        requires { core < 3 }
        ensures { result ≡ (holds core second self.now).0 }
    {
        self.world.held(core, second).is_some()
    }

    /// A copy of the events so far.
    ///
    /// # Errors
    /// `NoMemory`.
    pub(crate) fn events(&self, alloc: Global) -> Result<Events, NoMemory>
        ensures events { IfOk result (λ events. events ≡ self.now.history.events) }
        ensures lawful { AreEvents header self.now.history.events }
    {
        let events = self.world.events().to_vec(alloc)?;
        Ok(Events::from_vec(events))
    }

    /// A copy of the plan.
    ///
    /// # Errors
    /// `NoMemory`.
    pub(crate) fn plan(&self, alloc: Global) -> Result<Plan, NoMemory>
        ensures copied { IfOk result (λ plan. plan ≡ header) }
        ensures same { self.now.history.plan ≡ header }
    {
        self.world.plan().copy(alloc)
    }
}
