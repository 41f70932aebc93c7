ghost use Rattle.std.specs.Prelude.{◌≡◌};
ghost use Rattle.ksi_tlv.specs.Views.{view_placed};
ghost use Rattle.ksi_tlv.specs.Contents.{number_in, time_in, level_in, algorithm_in, imprint_in, raw_in};

use crate::Placed;
use crate::grammar::fault::ElementFault;
use ksi_imprint::Imprint;

/// The longest raw sibling.
const RAW_LIMIT: usize = 4096;

/// The number that the body is.
pub fn number(at: &Placed<'_>) -> Result<u64, ElementFault>
    ensures { result ≡ number_in (view_placed at.now) }
{
    match crate::number(at.element.body) {
        Ok(n) => Ok(n),
        Err(_) => Err(ElementFault::Number(at.place)),
    }
}

/// The time that the body is: seconds, below 2^63.
#[tactic(auto, unfolding(crate::specs::Contents::time_in))]
pub fn time(at: &Placed<'_>) -> Result<u64, ElementFault>
    ensures { result ≡ time_in (view_placed at.now) }
{
    let n = number(at)?;
    if n < 0x8000_0000_0000_0000 {
        Ok(n)
    } else {
        Err(ElementFault::Time(at.place))
    }
}

/// The level correction that the body is, at most 255.
#[tactic(auto, unfolding(crate::specs::Contents::level_in))]
pub fn level(at: &Placed<'_>) -> Result<u8, ElementFault>
    ensures { result ≡ level_in (view_placed at.now) }
{
    let n = number(at)?;
    if n < 0x100 {
        Ok(n as u8)
    } else {
        Err(ElementFault::Number(at.place))
    }
}

/// The algorithm that the body names: 1, SHA-256.
#[tactic(auto, unfolding(crate::specs::Contents::algorithm_in))]
pub fn algorithm(at: &Placed<'_>) -> Result<u64, ElementFault>
    ensures { result ≡ algorithm_in (view_placed at.now) }
{
    let n = number(at)?;
    if n == 1 {
        Ok(n)
    } else {
        Err(ElementFault::Algorithm(n))
    }
}

/// The imprint that the body is.
#[tactic(auto, unfolding(crate::specs::Contents::imprint_in))]
pub fn imprint(at: &Placed<'_>) -> Result<Imprint, ElementFault>
    ensures { result ≡ imprint_in (view_placed at.now) }
{
    match Imprint::read(at.element.body) {
        Ok(imprint) => Ok(imprint),
        Err(_) => Err(ElementFault::Imprint(at.place)),
    }
}

/// Whether the body can be a sibling that is no imprint: 1 to 4,096 bytes.
#[tactic(auto, unfolding(crate::specs::Contents::raw_in))]
pub fn raw(at: &Placed<'_>) -> Result<(), ElementFault>
    ensures { result ≡ raw_in (view_placed at.now) }
{
    let size = at.element.body.len();
    if 0 < size && size <= RAW_LIMIT {
        Ok(())
    } else {
        Err(ElementFault::Sibling(at.place))
    }
}
