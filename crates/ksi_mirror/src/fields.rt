//! What single elements of a mirror's file say, by the elements inside them.
ghost use Rattle.std.specs.Prelude.{◌≡◌, ◌<◌, ◌≤◌, ◌^◌, IfOk};
ghost use Rattle.ksi_tlv.specs.Views.{view_placed};
ghost use Rattle.ksi_journal.specs.Elements.{rises};
ghost use Rattle.ksi_mirror.specs.Mirrors.{highest_core};
ghost use Rattle.ksi_mirror.specs.Elements.{root_said, list_said, core_at, core_from};

use ksi_imprint::Imprint;
use ksi_tlv::Placed;
use ksi_tlv::order::{Fields, OrderFault, imprint, number, time};

/// The greatest number of a core.
const HIGHEST_CORE: u64 = 8;

/// A second and its root.
#[tactic(auto, unfolding(crate::specs::Elements::root_said))]
pub(crate) fn read_root(at: &Placed<'_>, least: u64) -> Result<(u64, Imprint), OrderFault>
    ensures value { result ≡ root_said least (view_placed at.now) }
    ensures early { IfOk result (λ root. root.0 < 2 ^ 63) }
{
    let mut inside = Fields::new(at);
    let one = match inside.next(0x01) {
        Ok(at) => at,
        Err(fault) => return Err(fault),
    };
    let second = time(&one)?;
    check_rise(least, second, one.place)?;
    let two = match inside.next(0x02) {
        Ok(at) => at,
        Err(fault) => return Err(fault),
    };
    let root = imprint(&two)?;
    inside.done()?;
    Ok((second, root))
}

/// A second, a core, and how many items it sealed.
#[tactic(auto, unfolding(crate::specs::Elements::list_said))]
pub(crate) fn read_list(
    at: &Placed<'_>,
    least_list: u64,
    least_core: u8,
) -> Result<(u64, u8, u64), OrderFault>
    ensures value { result ≡ list_said least_list least_core (view_placed at.now) }
    ensures few { IfOk result (λ said. said.1 ≤ highest_core) }
{
    let mut inside = Fields::new(at);
    let one = match inside.next(0x01) {
        Ok(at) => at,
        Err(fault) => return Err(fault),
    };
    let second = time(&one)?;
    check_rise(least_list, second, one.place)?;
    let two = match inside.next(0x02) {
        Ok(at) => at,
        Err(fault) => return Err(fault),
    };
    let core = core_at(&two, number(&two)?)?;
    let least = core_from(least_list, least_core, second);
    check_rise(u64::from(least), u64::from(core), two.place)?;
    let three = match inside.next(0x03) {
        Ok(at) => at,
        Err(fault) => return Err(fault),
    };
    let count = number(&three)?;
    inside.done()?;
    Ok((second, core, count))
}

/// The least core of a list of a second.
fn core_from(least_list: u64, least_core: u8, second: u64) -> u8
    ensures { result ≡ core_from least_list least_core second }
{
    if second == least_list { least_core } else { 0 }
}

/// A core, which is at most 8.
fn core_at(at: &Placed<'_>, core: u64) -> Result<u8, OrderFault>
    ensures value { result ≡ core_at (view_placed at.now) core }
    ensures few { IfOk result (λ core. core ≤ highest_core) }
{
    if core <= HIGHEST_CORE {
        Ok(core as u8)
    } else {
        Err(OrderFault::Bound(at.place))
    }
}

/// A value that is at least the least.
fn check_rise(least: u64, value: u64, place: usize) -> Result<(), OrderFault>
    ensures { result ≡ rises least value place }
{
    if least <= value {
        Ok(())
    } else {
        Err(OrderFault::Order(place))
    }
}
