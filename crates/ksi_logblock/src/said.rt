use crate::line_proof::{LineLink, LineLinks, LineProof, MOST_LINKS};
use crate::proof_fault::ProofFault;
use crate::reading::{named, read_link};
use ksi_imprint::{Imprint, Refused};
use ksi_tlv::Placed;
use ksi_tlv::order::{OrderFault, Ordered, imprint};
use std::alloc::Global;
use std::marker::Model;

/// What the elements so far say.
#[derive(Drop)]
pub(crate) struct Reading {
    started: bool,
    mask: Imprint,
    links: Vec<LineLink>,
}

impl Model for Reading {
    ghost use Rattle.std.specs.Prelude.{◌≤◌, length};
    ghost use Rattle.ksi_logblock.specs.Elements.{Said};
    ghost use Rattle.ksi_logblock.specs.Links.{most_links};

    ghost Value = { Said };

    ghost view = { λ r. record { started = r.started; mask = r.mask; links = r.links.items } };

    ghost invariant = { λ r. length r.links.items ≤ most_links };
}

impl Reading {
    ghost use Rattle.std.specs.Prelude.{◌≡◌, ◌≢◌, true, Err, IsOk};
    ghost use Rattle.ksi_imprint.specs.declared.refused.Refused.TheVariants as refused;
    ghost use Rattle.ksi_tlv.specs.Views.{view_placed};
    ghost use Rattle.ksi_tlv.specs.Order.{Steps};
    ghost use Rattle.ksi_logblock.specs.Elements.{nothing_yet, mask_at, link_at};

    /// Nothing is read yet.
    pub(crate) fn new(alloc: Global) -> Self
        ensures { result ≡ nothing_yet }
    {
        Reading {
            started: false,
            mask: Imprint::ZERO,
            links: Vec::new(alloc),
        }
    }

    /// The proof that whole elements make.
    pub(crate) fn into_proof(self) -> LineProof
        ensures mask { result.mask ≡ self.mask }
        ensures links { result.links ≡ self.links }
    {
        let Reading {
            started: _,
            mask,
            links,
        } = self;
        LineProof {
            mask,
            links: LineLinks::from_vec(links),
        }
    }

    #[tactic(auto, unfolding(crate::specs::Elements::mask_at))]
    fn take_mask(&mut self, at: &Placed<'_>) -> Result<(), Refused<ProofFault>>
        ensures read { Steps (mask_at (view_placed at.now)) self.new result }
        ensures memory { result ≢ Err refused.NoMemory }
    {
        match imprint(at) {
            Ok(mask) => {
                self.started = true;
                self.mask = mask;
                self.links.clear();
                Ok(())
            }
            Err(fault) => Err(Refused::Fault(named(fault))),
        }
    }

    #[tactic(auto, unfolding(crate::specs::Elements::link_at))]
    fn take_link(&mut self, at: &Placed<'_>) -> Result<(), Refused<ProofFault>>
        ensures read { Steps (link_at self.old (view_placed at.now)) self.new result }
        ensures wanting { result ≡ Err refused.NoMemory → IsOk (link_at self.old (view_placed at.now)) }
    {
        if self.links.len() >= MOST_LINKS {
            return Err(Refused::Fault(ProofFault::Links(at.place)));
        }
        let link = match read_link(at) {
            Ok(link) => link,
            Err(fault) => return Err(Refused::Fault(named(fault))),
        };
        if self.links.push(link).is_err() {
            return Err(Refused::NoMemory);
        }
        Ok(())
    }
}

impl Ordered<ProofFault> for Reading {
    ghost use Rattle.ksi_logblock.specs.Elements.{proof_order};
    ghost use Rattle.ksi_logblock.specs.Wanting.{WantsFor};

    ghost order = { proof_order };

    ghost wants = { WantsFor };

    fn may_stand(&self, kind: u16) -> bool {
        if self.started {
            kind == 0x07 || kind == 0x08
        } else {
            kind == 0x01
        }
    }

    fn is_closed(&self) -> bool {
        false
    }

    fn is_whole(&self) -> bool {
        self.started
    }

    fn named(fault: OrderFault) -> ProofFault {
        named(fault)
    }

    #[tactic(auto, unfolding(crate::specs::Elements::element_read))]
    fn take(&mut self, at: &Placed<'_>) -> Result<(), Refused<ProofFault>> {
        if self.started {
            self.take_link(at)
        } else {
            self.take_mask(at)
        }
    }
}
