ghost use Rattle.std.specs.Prelude.{◌≡◌, ◌==◌, ◌||◌, ◌<◌, ◌^◌, Ok};
ghost use Rattle.ksi_tlv.specs.Views.{view_placed};
ghost use Rattle.ksi_tlv.specs.Numerals.{number_of};
ghost use Rattle.ksi_tlv.specs.Contents.{passes, number_in, time_in, level_in, imprint_in};
ghost use Rattle.ksi_signature.specs.Contents.{side_in};

use crate::kinds::{LEFT_LINK, RIGHT_LINK};
use ksi_imprint::Imprint;
use ksi_split::Side;
use ksi_tlv::Placed;
use ksi_tlv::grammar::{imprint, level, number, time};

/// The number that an accepted element says.
pub(crate) fn number_of(part: &Placed<'_>) -> u64
    requires { passes (number_in (view_placed part.now)) ≡ Ok tt }
    ensures { result ≡ number_of part.now.element.body.now }
{
    match number(part) {
        Ok(n) => n,
        Err(_) => unreachable!(),
    }
}

/// The time that an accepted element says.
pub(crate) fn time_of(part: &Placed<'_>) -> u64
    requires { passes (time_in (view_placed part.now)) ≡ Ok tt }
    ensures value { result ≡ number_of part.now.element.body.now }
    ensures below { result < 2 ^ 63 }
{
    match time(part) {
        Ok(time) => time,
        Err(_) => unreachable!(),
    }
}

/// The level correction that an accepted element says.
pub(crate) fn level_of(part: &Placed<'_>) -> u8
    requires { passes (level_in (view_placed part.now)) ≡ Ok tt }
    ensures { result ≡ number_of part.now.element.body.now }
{
    match level(part) {
        Ok(level) => level,
        Err(_) => unreachable!(),
    }
}

/// The imprint that an accepted element says.
pub(crate) fn imprint_of(part: &Placed<'_>) -> Imprint
    requires { passes (imprint_in (view_placed part.now)) ≡ Ok tt }
    ensures { result ≡ part.now.element.body.now }
{
    match imprint(part) {
        Ok(imprint) => imprint,
        Err(_) => unreachable!(),
    }
}

/// Whether an element is a link.
pub(crate) fn is_link(at: &Placed<'_>) -> bool
    ensures { result ≡ (at.now.element.kind == 7 || at.now.element.kind == 8) }
{
    matches!(at.element.kind, LEFT_LINK | RIGHT_LINK)
}

/// The side that a link is called after.
pub(crate) fn side_of(at: &Placed<'_>) -> Side
    ensures { result ≡ side_in (view_placed at.now) }
{
    if at.element.kind == LEFT_LINK {
        Side::Left
    } else {
        Side::Right
    }
}
