ghost use Rattle.std.specs.Prelude.{◌≡◌};
ghost use Rattle.ksi_consistency.specs.Elements.{named};

use crate::fault::FrontFault;
use crate::imprints::Imprints;
use crate::stage::{NEW, OLD, Stage};
use crate::value::Front;
use ksi_imprint::{Imprint, Refused};
use ksi_tlv::Placed;
use ksi_tlv::order::{OrderFault, Ordered, imprint, time};
use std::alloc::Global;
use std::marker::Model;

/// What the elements so far say.
#[derive(Drop)]
pub(crate) struct Loading {
    stage: Stage,
    p1: u64,
    p2: u64,
    list: Vec<Imprint>,
}

impl Model for Loading {
    ghost use Rattle.ksi_consistency.specs.Elements.{Said, IsBounded};

    ghost Value = { Said };

    ghost view = { λ s. record { stage = s.stage; contents = record { p1 = s.p1; p2 = s.p2; list = s.list.items } } };

    ghost invariant = { λ s. IsBounded s.p1 s.p2 };
}

impl Loading {
    ghost use Rattle.std.specs.Prelude.{◌≡◌, ◌≢◌, Err, IsOk};
    ghost use Rattle.ksi_tlv.specs.Views.{view_placed};
    ghost use Rattle.ksi_tlv.specs.Order.{Steps};
    ghost use Rattle.ksi_imprint.specs.declared.refused.Refused.TheVariants as refused;
    ghost use Rattle.ksi_consistency.specs.Elements.{nothing_yet, old_at, new_at, next_at};

    /// Nothing is read yet.
    pub(crate) fn new(alloc: Global) -> Self
        ensures { result ≡ nothing_yet }
    {
        Loading {
            stage: Stage::Old,
            p1: 0,
            p2: 0,
            list: Vec::new(alloc),
        }
    }

    /// The front that whole elements make.
    pub(crate) fn into_front(self) -> Front
        ensures { result ≡ self.contents }
    {
        let Loading {
            stage: _,
            p1,
            p2,
            list,
        } = self;
        Front::new(p1, p2, Imprints::from_vec(list))
    }

    #[tactic(auto, unfolding(crate::specs::Elements::old_at))]
    fn old(&mut self, at: &Placed<'_>) -> Result<(), Refused<FrontFault>>
        ensures read { Steps (old_at self.old (view_placed at.now)) self.new result }
        ensures memory { result ≢ Err refused.NoMemory }
    {
        match time(at) {
            Ok(second) => {
                self.stage = Stage::New;
                self.p1 = second;
                self.p2 = second;
                Ok(())
            }
            Err(fault) => Err(Refused::Fault(named(fault))),
        }
    }

    #[tactic(auto, unfolding(crate::specs::Elements::new_at))]
    fn new_second(&mut self, at: &Placed<'_>) -> Result<(), Refused<FrontFault>>
        ensures read { Steps (new_at self.old (view_placed at.now)) self.new result }
        ensures memory { result ≢ Err refused.NoMemory }
    {
        match time(at) {
            Ok(second) => {
                if second < self.p1 {
                    return Err(Refused::Fault(FrontFault::Number(at.place)));
                }
                self.stage = Stage::Imprints;
                self.p2 = second;
                Ok(())
            }
            Err(fault) => Err(Refused::Fault(named(fault))),
        }
    }

    #[tactic(auto, unfolding(crate::specs::Elements::next_at))]
    fn next_imprint(&mut self, at: &Placed<'_>) -> Result<(), Refused<FrontFault>>
        ensures read { Steps (next_at self.old (view_placed at.now)) self.new result }
        ensures wanting { result ≡ Err refused.NoMemory → IsOk (next_at self.old (view_placed at.now)) }
    {
        match imprint(at) {
            Ok(next) => {
                if self.list.push(next).is_err() {
                    return Err(Refused::NoMemory);
                }
                Ok(())
            }
            Err(fault) => Err(Refused::Fault(named(fault))),
        }
    }
}

impl Ordered<FrontFault> for Loading {
    ghost use Rattle.ksi_consistency.specs.Elements.{front_order};
    ghost use Rattle.ksi_consistency.specs.Wanting.{WantsFor};

    ghost order = { front_order };

    ghost wants = { WantsFor };

    fn may_stand(&self, kind: u16) -> bool {
        self.stage.allows(kind)
    }

    fn is_closed(&self) -> bool {
        false
    }

    fn is_whole(&self) -> bool {
        matches!(self.stage, Stage::Imprints)
    }

    fn named(fault: OrderFault) -> FrontFault {
        named(fault)
    }

    #[tactic(auto, unfolding(crate::specs::Elements::element_read))]
    fn take(&mut self, at: &Placed<'_>) -> Result<(), Refused<FrontFault>> {
        match at.element.kind {
            OLD => self.old(at),
            NEW => self.new_second(at),
            _ => self.next_imprint(at),
        }
    }
}

/// A fault of order by its name here.
pub(crate) fn named(fault: OrderFault) -> FrontFault
    ensures { result ≡ named fault }
{
    match fault {
        OrderFault::Tlv(place) => FrontFault::Tlv(place),
        OrderFault::Order(place) => FrontFault::Order(place),
        OrderFault::Ends(place) => FrontFault::Order(place),
        OrderFault::Bound(place) => FrontFault::Number(place),
        OrderFault::Imprint(place) => FrontFault::Imprint(place),
    }
}
