//! Who votes from a second on, as an element says it: one bit for each core.
ghost use Rattle.std.specs.Prelude.{◌≡◌, ◌<◌, ◌^◌, IfOk};
ghost use Rattle.ksi_synod.specs.CorePlans.{AreVoters};
ghost use Rattle.ksi_tlv.specs.Views.{view_placed};
ghost use Rattle.ksi_tlv.specs.Left.{left};
ghost use Rattle.ksi_journal.specs.Elements.{voters_in, voters_from};
ghost use Rattle.ksi_journal.specs.Kept.{IsVoting};
ghost use Rattle.ksi_journal.specs.Voters.{bits_of, cores_in};

use crate::fault::JournalFault;
use crate::fields::rising;
use crate::loading::named;
use ksi_synod::laws::voters_are_cores;
use ksi_synod::{Voters, VotersFrom};
use ksi_tlv::Placed;
use ksi_tlv::order::{Fields, OrderFault, number};

/// The bits of all cores from 0 to 8.
const ALL_BITS: u64 = 511;

/// The second from which on they vote, which is at least the least, and their bits.
#[tactic(auto, unfolding(crate::specs::Elements::voters_from))]
pub(crate) fn read_voters(at: &Placed<'_>, least: u64) -> Result<VotersFrom, JournalFault>
    ensures value { result ≡ voters_from least (view_placed at.now) }
    ensures early { IfOk result (λ pair. pair.second < 2 ^ 63) }
{
    let mut inside = Fields::new(at);
    let (second, bits, place) = match voting(&mut inside, least) {
        Ok(found) => found,
        Err(fault) => return Err(named(fault)),
    };
    let voters = voters_in(bits, place)?;
    match inside.done() {
        Ok(()) => Ok(VotersFrom { second, voters }),
        Err(fault) => Err(named(fault)),
    }
}

/// The second, the bits, and the place of the bits.
#[tactic(auto, unfolding(crate::specs::Elements::voting))]
fn voting(inside: &mut Fields<'_>, least: u64) -> Result<(u64, u64, usize), OrderFault>
    ensures value { IsVoting least (left inside.old) (left inside.new) result }
    ensures early { IfOk result (λ found. found.0 < 2 ^ 63) }
{
    let second = match rising(inside, least) {
        Ok(second) => second,
        Err(fault) => return Err(fault),
    };
    let two = match inside.next(0x02) {
        Ok(at) => at,
        Err(fault) => return Err(fault),
    };
    let bits = number(&two)?;
    Ok((second, bits, two.place))
}

/// One or more of the cores 0 to 8.
fn voters_in(bits: u64, place: usize) -> Result<Voters, JournalFault>
    ensures { result ≡ voters_in bits place }
{
    if 1 <= bits && bits <= ALL_BITS {
        Ok(cores_in(bits))
    } else {
        Err(JournalFault::Voters(place))
    }
}

/// The cores whose bit is 1.
#[tactic(auto, unfolding(crate::specs::Voters::cores_in))]
fn cores_in(bits: u64) -> Voters
    ensures { result ≡ cores_in bits }
{
    let mut voters = Voters::none();
    for core in 0..9u8 {
        if bits >> core & 1 == 1 {
            voters = voters.with(core);
        }
    }
    voters
}

/// The number in which core j is bit j.
pub(crate) fn bits_of(voters: &Voters) -> u64
    requires { AreVoters 9 voters.now }
    ensures { result ≡ bits_of voters.now }
{
    voters_are_cores();
    let mut bits = 0;
    for core in 0..9u8 {
        if voters.contains(core) {
            bits += 1 << core;
        }
    }
    bits
}
