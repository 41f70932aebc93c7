ghost use Rattle.std.specs.Prelude.{◌≡◌};
ghost use Rattle.ksi_tlv.specs.Views.{view_placed};
ghost use Rattle.ksi_journal.specs.Elements.{named};

use crate::fault::JournalFault;
use crate::item::{ITEM, NAMED};
use crate::parts::Parts;
use crate::stage::Stage;
use crate::version::Version;
use crate::voters::read_voters;
use ksi_aggtree::Item;
use ksi_imprint::{Compress, Imprint, Refused};
use ksi_tlv::Placed;
use ksi_tlv::order::{OrderFault, Ordered, time};
use std::alloc::Global;
use std::marker::{Model, PhantomData};

pub(crate) const START: u16 = 0x01;

pub(crate) const SECOND: u16 = 0x02;

pub(crate) const ISSUED: u16 = 0x04;

pub(crate) const PUBLICATION: u16 = 0x05;

pub(crate) const END: u16 = 0x06;

pub(crate) const VOTERS: u16 = 0x08;

/// What the elements so far say. If memory runs out for an element, some of it may have been taken: `load` then drops
/// all that was loaded, and nobody sees it.
#[derive(Drop)]
pub(crate) struct Loading<C: Compress> {
    pub(crate) version: Version,
    pub(crate) stage: Stage,
    pub(crate) parts: Parts,
    pub(crate) least_voters: u64,
    pub(crate) least_second: u64,
    // one more than a number of 64 bits may be
    pub(crate) least_number: u128,
    pub(crate) least_time: u64,
    pub(crate) second: u64,
    pub(crate) root: Imprint,
    pub(crate) items: Vec<Item>,
    pub(crate) left: usize,
    pub(crate) alloc: Global,
    compress: PhantomData<C>,
}

impl<C: Compress> Model for Loading<C> {
    ghost use Rattle.ksi_journal.specs.Journal.{contents};
    ghost use Rattle.ksi_journal.specs.Elements.{Loaded};
    ghost use Rattle.ksi_journal.specs.Kept.{IsLoading};

    ghost Value = { Loaded };

    ghost view = { λ s. record {
      version = s.version;
      stage = s.stage;
      contents = contents s.parts;
      least_voters = s.least_voters;
      least_second = s.least_second;
      least_number = s.least_number;
      least_time = s.least_time;
      current = record { second = s.second; root = s.root; items = s.items.items };
      left = s.left;
    } };

    ghost invariant = { λ s. IsLoading s.second s.items.items s.left };
}

impl<C: Compress> Loading<C> {
    ghost use Rattle.std.specs.Prelude.{◌≡◌, ◌≢◌, Err, IsOk};
    ghost use Rattle.ksi_tlv.specs.Views.{view_placed};
    ghost use Rattle.ksi_tlv.specs.Order.{Steps};
    ghost use Rattle.ksi_imprint.specs.declared.refused.Refused.TheVariants as refused;
    ghost use Rattle.ksi_journal.specs.Elements.{nothing_yet, start_at, voters_at, end_at};
    ghost use Rattle.ksi_journal.specs.Journal.{contents};

    /// Nothing is read yet of a file of the version.
    pub(crate) fn new(alloc: Global, version: Version) -> Self
        ensures { result ≡ nothing_yet version }
    {
        Loading {
            version,
            stage: Stage::Start,
            parts: Parts {
                start: 0,
                voters: Vec::new(alloc),
                seconds: Vec::new(alloc),
                issued: Vec::new(alloc),
                publications: Vec::new(alloc),
            },
            least_voters: 0,
            least_second: 0,
            least_number: 0,
            least_time: 0,
            second: 0,
            root: Imprint::ZERO,
            items: Vec::new(alloc),
            left: 0,
            alloc,
            compress: PhantomData,
        }
    }

    /// The journal that whole elements make, but for its calendar.
    pub(crate) fn into_parts(self) -> Parts
        ensures { contents result ≡ self.contents }
    {
        let Loading {
            version: _,
            stage: _,
            parts,
            least_voters: _,
            least_second: _,
            least_number: _,
            least_time: _,
            second: _,
            root: _,
            items: _,
            left: _,
            alloc: _,
            compress: _,
        } = self;
        parts
    }

    #[tactic(auto, unfolding(crate::specs::Elements::start_at))]
    fn start(&mut self, at: &Placed<'_>) -> Result<(), Refused<JournalFault>>
        ensures read { Steps (start_at self.old (view_placed at.now)) self.new result }
        ensures memory { result ≢ Err refused.NoMemory }
    {
        match time(at) {
            Ok(start) => {
                self.stage = Stage::Voters;
                self.parts.start = start;
                self.least_voters = start;
                self.least_second = start;
                Ok(())
            }
            Err(fault) => Err(Refused::Fault(named(fault))),
        }
    }

    #[tactic(auto, unfolding(crate::specs::Elements::voters_at))]
    fn voters(&mut self, at: &Placed<'_>) -> Result<(), Refused<JournalFault>>
        ensures read { Steps (voters_at self.old (view_placed at.now)) self.new result }
        ensures wanting { result ≡ Err refused.NoMemory → IsOk (voters_at self.old (view_placed at.now)) }
    {
        let pair = match read_voters(at, self.least_voters) {
            Ok(pair) => pair,
            Err(fault) => return Err(Refused::Fault(fault)),
        };
        let second = pair.second;
        if self.parts.voters.push(pair).is_err() {
            return Err(Refused::NoMemory);
        }
        self.least_voters = second + 1;
        Ok(())
    }

    #[tactic(auto, unfolding(crate::specs::Elements::end_at))]
    fn end(&mut self, at: &Placed<'_>) -> Result<(), Refused<JournalFault>>
        ensures read { Steps (end_at self.old (view_placed at.now)) self.new result }
        ensures memory { result ≢ Err refused.NoMemory }
    {
        if at.element.body.is_empty() {
            self.stage = Stage::End;
            Ok(())
        } else {
            Err(Refused::Fault(JournalFault::Ends(at.place)))
        }
    }
}

impl<C: Compress> Ordered<JournalFault> for Loading<C> {
    ghost use Rattle.ksi_journal.specs.Elements.{WantsFor, journal_order};

    ghost order = { journal_order C.image };

    ghost wants = { WantsFor C.image };

    fn may_stand(&self, kind: u16) -> bool {
        match self.stage {
            Stage::Start => kind == START,
            Stage::Voters => {
                matches!(kind, SECOND | ISSUED | PUBLICATION | END)
                    || kind == VOTERS && matches!(self.version, Version::Two)
            }
            Stage::Seconds => matches!(kind, SECOND | ISSUED | PUBLICATION | END),
            Stage::Items => kind == ITEM || kind == NAMED && matches!(self.version, Version::Two),
            Stage::Issued => matches!(kind, ISSUED | PUBLICATION | END),
            Stage::Publications => matches!(kind, PUBLICATION | END),
            Stage::End => false,
        }
    }

    fn is_closed(&self) -> bool {
        matches!(self.stage, Stage::End)
    }

    fn is_whole(&self) -> bool {
        self.is_closed()
    }

    fn named(fault: OrderFault) -> JournalFault {
        named(fault)
    }

    #[tactic(auto, unfolding(crate::specs::Elements::element_read))]
    fn take(&mut self, at: &Placed<'_>) -> Result<(), Refused<JournalFault>> {
        match at.element.kind {
            START => self.start(at),
            SECOND => self.second(at),
            ITEM | NAMED => self.item(at),
            ISSUED => self.issued(at),
            PUBLICATION => self.publication(at),
            VOTERS => self.voters(at),
            _ => self.end(at),
        }
    }
}

/// A fault of order by its name here.
pub fn named(fault: OrderFault) -> JournalFault
    ensures { result ≡ named fault }
{
    match fault {
        OrderFault::Tlv(place) => JournalFault::Tlv(place),
        OrderFault::Order(place) => JournalFault::Order(place),
        OrderFault::Ends(place) => JournalFault::Ends(place),
        OrderFault::Bound(place) => JournalFault::Bound(place),
        OrderFault::Imprint(place) => JournalFault::Imprint(place),
    }
}
