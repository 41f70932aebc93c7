//! What single elements say, by the elements inside them.
ghost use Rattle.std.specs.Prelude.{◌≡◌, ◌<◌, ◌≤◌, ◌^◌, IfOk, Ok, Err, Result, ℕ};
ghost use Rattle.ksi_tlv.specs.Views.{view_placed};
ghost use Rattle.ksi_tlv.specs.Left.{left};
ghost use Rattle.ksi_journal.specs.Elements.{said_at, signature_at, published_at, rises};
ghost use Rattle.ksi_journal.specs.Kept.{IsRising, IsDated, IsNumbered, view_signature};

use ksi_imprint::Imprint;
use ksi_tlv::Placed;
use ksi_tlv::order::{Fields, OrderFault, imprint, number, time};

/// The longest signature.
const LONGEST: usize = 60_000;

/// A second, its root, and how many items it has.
#[tactic(auto, unfolding(crate::specs::Elements::said_at))]
pub(crate) fn read_second(at: &Placed<'_>, least: u64) -> Result<(u64, Imprint, u64), OrderFault>
    ensures value { result ≡ said_at least (view_placed at.now) }
    ensures early { IfOk result (λ said. said.0 < 2 ^ 63) }
{
    let mut inside = Fields::new(at);
    let (second, root) = match dated(&mut inside, least) {
        Ok(found) => found,
        Err(fault) => return Err(fault),
    };
    let three = match inside.next(0x03) {
        Ok(at) => at,
        Err(fault) => return Err(fault),
    };
    let count = number(&three)?;
    inside.done()?;
    Ok((second, root, count))
}

/// A time that is at least the least, and behind it an imprint.
#[tactic(auto, unfolding(crate::specs::Elements::dated))]
fn dated(inside: &mut Fields<'_>, least: u64) -> Result<(u64, Imprint), OrderFault>
    ensures value { IsDated least (left inside.old) (left inside.new) result }
    ensures early { IfOk result (λ found. found.0 < 2 ^ 63) }
{
    let found = match rising(inside, least) {
        Ok(found) => found,
        Err(fault) => return Err(fault),
    };
    let two = match inside.next(0x02) {
        Ok(at) => at,
        Err(fault) => return Err(fault),
    };
    let root = imprint(&two)?;
    Ok((found, root))
}

/// A time that is at least the least.
#[tactic(auto, unfolding(crate::specs::Elements::rising))]
pub(crate) fn rising(inside: &mut Fields<'_>, least: u64) -> Result<u64, OrderFault>
    ensures value { IsRising least (left inside.old) (left inside.new) result }
    ensures early { IfOk result (λ found. found < 2 ^ 63) }
{
    let one = match inside.next(0x01) {
        Ok(at) => at,
        Err(fault) => return Err(fault),
    };
    let found = time(&one)?;
    check_rise(u128::from(least), u128::from(found), one.place)?;
    Ok(found)
}

/// A value that is at least the least.
fn check_rise(least: u128, value: u128, place: usize) -> Result<(), OrderFault>
    ensures { result ≡ rises least value place }
{
    if least <= value {
        Ok(())
    } else {
        Err(OrderFault::Order(place))
    }
}

/// The number of an issued signature, and its bytes.
#[tactic(auto, unfolding(crate::specs::Elements::signature_at))]
pub(crate) fn read_signature<'a>(
    at: &Placed<'a>,
    least: u128,
) -> Result<(u64, &'a [u8]), OrderFault>
    ensures { view_signature result ≡ signature_at least (view_placed at.now) }
{
    let mut inside = Fields::new(at);
    let signature = match numbered(&mut inside, least) {
        Ok(number) => number,
        Err(fault) => return Err(fault),
    };
    let two = match inside.next(0x02) {
        Ok(at) => at,
        Err(fault) => return Err(fault),
    };
    let bytes = two.element.body;
    if bytes.len() > LONGEST {
        return Err(OrderFault::Bound(two.place));
    }
    inside.done()?;
    Ok((signature, bytes))
}

/// A number that is at least the least.
#[tactic(auto, unfolding(crate::specs::Elements::numbered))]
fn numbered(inside: &mut Fields<'_>, least: u128) -> Result<u64, OrderFault>
    ensures { IsNumbered least (left inside.old) (left inside.new) result }
{
    let one = match inside.next(0x01) {
        Ok(at) => at,
        Err(fault) => return Err(fault),
    };
    let found = number(&one)?;
    check_rise(least, u128::from(found), one.place)?;
    Ok(found)
}

/// A published time, and the root that was published.
#[tactic(auto, unfolding(crate::specs::Elements::published_at))]
pub(crate) fn read_publication(at: &Placed<'_>, least: u64) -> Result<(u64, Imprint), OrderFault>
    ensures value { result ≡ published_at least (view_placed at.now) }
    ensures early { IfOk result (λ publication. publication.0 < 2 ^ 63) }
{
    let mut inside = Fields::new(at);
    let found = match dated(&mut inside, least) {
        Ok(found) => found,
        Err(fault) => return Err(fault),
    };
    inside.done()?;
    Ok(found)
}
