ghost use Rattle.std.specs.Prelude.{◌≡◌};
ghost use Rattle.ksi_tlv.specs.Reading.{value_said};
ghost use Rattle.ksi_consistency.specs.Few.{few_at};
ghost use Rattle.ksi_consistency.specs.Reading.{front_at};

use crate::fault::FrontFault;
use crate::few::Few;
use crate::laws::front_is_read;
use crate::loading::named;
use crate::reader::MAGIC;
use crate::stage::{NEW, OLD, Stage};
use ksi_imprint::{Imprint, Refused};
use ksi_tlv::order::{OrderFault, Ordered, imprint, time, walk};
use ksi_tlv::{Placed, after_magic};
use std::marker::Model;

/// What the elements so far say, with at most 65 imprints. It takes no memory.
#[derive(Drop)]
pub(crate) struct Noting {
    stage: Stage,
    p1: u64,
    p2: u64,
    list: Few,
}

impl Model for Noting {
    ghost use Rattle.ksi_consistency.specs.Elements.{Said, IsBounded};

    ghost Value = { Said };

    ghost view = { λ s. record { stage = s.stage; contents = record { p1 = s.p1; p2 = s.p2; list = s.list } } };

    ghost invariant = { λ s. IsBounded s.p1 s.p2 };
}

impl Noting {
    ghost use Rattle.std.specs.Prelude.{◌≡◌, ◌≢◌, ◌≤◌, Err};
    ghost use Rattle.ksi_tlv.specs.Views.{view_placed};
    ghost use Rattle.ksi_tlv.specs.Order.{Steps};
    ghost use Rattle.ksi_imprint.specs.declared.refused.Refused.TheVariants as refused;
    ghost use Rattle.ksi_consistency.specs.Elements.{nothing_yet, old_at, new_at, next_at};
    ghost use Rattle.ksi_consistency.specs.Few.{few_read};

    /// Nothing is read yet.
    fn new() -> Self
        ensures { result ≡ nothing_yet }
    {
        Noting {
            stage: Stage::Old,
            p1: 0,
            p2: 0,
            list: Few::new(),
        }
    }

    pub(crate) fn p1(&self) -> u64
        ensures { result ≡ self.now.contents.p1 }
    {
        self.p1
    }

    pub(crate) fn p2(&self) -> u64
        ensures value { result ≡ self.now.contents.p2 }
        ensures within { self.now.contents.p1 ≤ self.now.contents.p2 }
    {
        self.p2
    }

    pub(crate) fn list(&self) -> &[Imprint]
        ensures { result.now ≡ self.now.contents.list }
    {
        self.list.as_slice()
    }

    #[tactic(auto, unfolding(crate::specs::Elements::old_at))]
    fn old(&mut self, at: &Placed<'_>) -> Result<(), Refused<FrontFault>>
        ensures read { Steps (few_read (old_at self.old (view_placed at.now))) self.new result }
        ensures memory { result ≢ Err refused.NoMemory }
    {
        match time(at) {
            Ok(second) => {
                self.list.as_slice();
                self.stage = Stage::New;
                self.p1 = second;
                self.p2 = second;
                Ok(())
            }
            Err(fault) => Err(Refused::Fault(named(fault))),
        }
    }

    #[tactic(auto, unfolding(crate::specs::Elements::new_at))]
    fn new_second(&mut self, at: &Placed<'_>) -> Result<(), Refused<FrontFault>>
        ensures read { Steps (few_read (new_at self.old (view_placed at.now))) self.new result }
        ensures memory { result ≢ Err refused.NoMemory }
    {
        match time(at) {
            Ok(second) => {
                if second < self.p1 {
                    return Err(Refused::Fault(FrontFault::Number(at.place)));
                }
                self.list.as_slice();
                self.stage = Stage::Imprints;
                self.p2 = second;
                Ok(())
            }
            Err(fault) => Err(Refused::Fault(named(fault))),
        }
    }

    #[tactic(auto, unfolding(crate::specs::Elements::next_at))]
    fn next_imprint(&mut self, at: &Placed<'_>) -> Result<(), Refused<FrontFault>>
        ensures read { Steps (few_read (next_at self.old (view_placed at.now))) self.new result }
        ensures memory { result ≢ Err refused.NoMemory }
    {
        match imprint(at) {
            Ok(next) => {
                self.list.push(next);
                Ok(())
            }
            Err(fault) => Err(Refused::Fault(named(fault))),
        }
    }
}

impl Ordered<FrontFault> for Noting {
    ghost use Rattle.ksi_consistency.specs.Few.{Never, few_order};

    ghost order = { few_order };

    ghost wants = { Never };

    fn may_stand(&self, kind: u16) -> bool {
        self.stage.allows(kind)
    }

    fn is_closed(&self) -> bool {
        false
    }

    fn is_whole(&self) -> bool {
        matches!(self.stage, Stage::Imprints)
    }

    fn named(fault: OrderFault) -> FrontFault {
        named(fault)
    }

    #[tactic(auto, unfolding(crate::specs::Elements::element_read))]
    fn take(&mut self, at: &Placed<'_>) -> Result<(), Refused<FrontFault>> {
        match at.element.kind {
            OLD => self.old(at),
            NEW => self.new_second(at),
            _ => self.next_imprint(at),
        }
    }
}

/// Reads the file of a front, of which at most 65 imprints are kept.
///
/// # Errors
/// The first fault in order of bytes.
pub(crate) fn note(bytes: &[u8]) -> Result<Noting, FrontFault>
    ensures { value_said (λ s. s.contents) result ≡ few_at (front_at bytes.now) }
{
    front_is_read();
    let Some(rest) = after_magic(bytes, MAGIC) else {
        return Err(FrontFault::Magic);
    };
    let mut noting = Noting::new();
    match walk(&mut noting, 8, rest) {
        Ok(()) => Ok(noting),
        Err(Refused::Fault(fault)) => Err(fault),
        Err(Refused::NoMemory) => unreachable!(),
    }
}
