ghost use Rattle.std.specs.Prelude.{◌≡◌, ◌<◌, ◌^◌, IfOk};
ghost use Rattle.ksi_tlv.specs.Views.{view_placed};
ghost use Rattle.ksi_tlv.specs.Values.{number_at, time_at, imprint_at};

use crate::Placed;
use crate::order::fault::OrderFault;
use ksi_imprint::Imprint;

/// The number that the body is, of at most 8 bytes.
#[tactic(auto, unfolding(crate::specs::Values::number_at))]
pub fn number(at: &Placed<'_>) -> Result<u64, OrderFault>
    ensures { result ≡ number_at (view_placed at.now) }
{
    match crate::grammar::number(at) {
        Ok(n) => Ok(n),
        Err(_) => Err(OrderFault::Bound(at.place)),
    }
}

/// The time that the body is: seconds, below 2^63.
#[tactic(auto, unfolding(crate::specs::Values::time_at, crate::specs::Contents::time_in))]
pub fn time(at: &Placed<'_>) -> Result<u64, OrderFault>
    ensures value { result ≡ time_at (view_placed at.now) }
    ensures below { IfOk result (λ t. t < 2 ^ 63) }
{
    match crate::grammar::time(at) {
        Ok(t) => Ok(t),
        Err(_) => Err(OrderFault::Bound(at.place)),
    }
}

/// The imprint that the body is.
#[tactic(auto, unfolding(crate::specs::Values::imprint_at))]
pub fn imprint(at: &Placed<'_>) -> Result<Imprint, OrderFault>
    ensures { result ≡ imprint_at (view_placed at.now) }
{
    match crate::grammar::imprint(at) {
        Ok(imprint) => Ok(imprint),
        Err(_) => Err(OrderFault::Imprint(at.place)),
    }
}
