//! A proof file, as it is read.
ghost use Rattle.std.specs.Prelude.{◌≡◌, IfOk};
ghost use Rattle.ksi_imprint.specs.Refused.{IfRefused};
ghost use Rattle.ksi_tlv.specs.Views.{view_placed};
ghost use Rattle.ksi_tlv.specs.Left.{left};
ghost use Rattle.ksi_logblock.specs.Elements.{correction_at, link_in, named, side_of, with_sibling};
ghost use Rattle.ksi_logblock.specs.File.{IsProofFile, IsProofFault};
ghost use Rattle.ksi_logblock.specs.Wanting.{IsWantingInside};

use crate::line_proof::{LineLink, LineProof};
use crate::proof_fault::ProofFault;
use crate::said::Reading;
use ksi_imprint::Refused;
use ksi_split::Side;
use ksi_tlv::order::{Fields, OrderFault, imprint, walk};
use ksi_tlv::{Placed, after_magic};
use std::alloc::Global;

pub(crate) const MAGIC: &[u8; 8] = b"KSILINE1";

/// The proof of a line that bytes are.
///
/// # Errors
/// The first fault in order of bytes, or `NoMemory`: only for a link, up to which there is no fault.
#[tactic(auto, unfolding(crate::specs::File::proof_format))]
pub fn read_proof(alloc: Global, bytes: &[u8]) -> Result<LineProof, Refused<ProofFault>>
    ensures proof { IfOk result (IsProofFile bytes.now) }
    ensures refused { IfRefused result (IsProofFault bytes.now) (IsWantingInside bytes.now) }
{
    let Some(rest) = after_magic(bytes, MAGIC) else {
        return Err(Refused::Fault(ProofFault::Magic));
    };
    let mut reading = Reading::new(alloc);
    match walk(&mut reading, 8, rest) {
        Ok(()) => Ok(reading.into_proof()),
        Err(refused) => Err(refused),
    }
}

/// What an element of a link says: a correction, where one stands first, and an imprint.
#[tactic(auto, unfolding(crate::specs::Elements::link_in))]
pub(crate) fn read_link(at: &Placed<'_>) -> Result<LineLink, OrderFault>
    ensures { result ≡ link_in (view_placed at.now) }
{
    let side = if at.element.kind == 0x07 {
        Side::Left
    } else {
        Side::Right
    };
    let mut inside = Fields::new(at);
    match inside.next(0x01) {
        Ok(first) => {
            let correction = read_correction(&first)?;
            read_sibling(side, correction, inside)
        }
        Err(OrderFault::Order(_)) => read_sibling(side, 0, Fields::new(at)),
        Err(fault) => Err(fault),
    }
}

/// A correction is a number of at most 255.
#[tactic(auto, unfolding(crate::specs::Elements::correction_at))]
fn read_correction(at: &Placed<'_>) -> Result<u8, OrderFault>
    ensures { result ≡ correction_at (view_placed at.now) }
{
    match ksi_tlv::grammar::level(at) {
        Ok(correction) => Ok(correction),
        Err(_) => Err(OrderFault::Bound(at.place)),
    }
}

/// An imprint, behind which nothing stands.
#[tactic(auto, unfolding(crate::specs::Elements::with_sibling))]
fn read_sibling(side: Side, correction: u8, mut inside: Fields<'_>) -> Result<LineLink, OrderFault>
    ensures { result ≡ with_sibling side correction (left inside.entry) }
{
    let two = match inside.next(0x02) {
        Ok(at) => at,
        Err(fault) => return Err(fault),
    };
    let sibling = imprint(&two)?;
    inside.done()?;
    Ok(LineLink {
        side,
        correction,
        sibling,
    })
}

/// A fault of order by its name here.
pub(crate) fn named(fault: OrderFault) -> ProofFault
    ensures { result ≡ named fault }
{
    match fault {
        OrderFault::Tlv(place) => ProofFault::Tlv(place),
        OrderFault::Order(place) | OrderFault::Ends(place) => ProofFault::Order(place),
        OrderFault::Bound(place) => ProofFault::Number(place),
        OrderFault::Imprint(place) => ProofFault::Imprint(place),
    }
}
