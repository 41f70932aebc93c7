ghost use Rattle.std.specs.Prelude.{◌≡◌, ◌<◌, ◌≤◌, ◌^◌, ◌↔◌, ℕ, List, take, length};
ghost use Rattle.ksi_split.specs.Ways.{NamesSecond, PassesLeaf, EndsAbove};
ghost use Rattle.ksi_split.specs.Parts.{second_at};
ghost use Rattle.ksi_split.specs.declared.side.Side.{Side};
ghost use Rattle.ksi_split.specs.declared.fault.ShapeFault.TheVariants.{TooMany, TooFew};
ghost use Rattle.ksi_calendar.specs.Sides.{sides_from_top};

use crate::link::CalendarLink;
use ksi_split::laws::{one_answer, proper_fronts, short_ways};
use ksi_split::{ShapeFault, Side, second_of};

/// The second that a chain's sides name, where the calendar is that of the seconds from 0 to `p`. The links stand from
/// the bottom, and places are counted from the top.
///
/// # Errors
/// `TooMany(place)` where the links above the one at `place` are already the way to a second, and `TooFew(rest)` where
/// the links end at a part that has `rest` seconds more than one.
pub fn second(p: u64, links: &[CalendarLink]) -> Result<u64, ShapeFault>
    ensures second { (t : ℕ) → (result ≡ Ok t) ↔ NamesSecond p (sides_from_top links.now) t }
    ensures too_many { (place : ℕ) →
        (result ≡ Err (TooMany place)) ↔ PassesLeaf p (sides_from_top links.now) place }
    ensures too_few { (rest : ℕ) →
        (result ≡ Err (TooFew rest)) ↔ EndsAbove p (sides_from_top links.now) rest }
    ensures value { result ≡ second_at p (sides_from_top links.now) }
{
    one_answer();
    uppermost_tell();
    let count = links.len().min(65);
    let sides = uppermost(links, count);
    second_of(p, &sides[..count])
}

/// The sides of the uppermost `count` links, the top first. Behind them all are left.
fn uppermost(links: &[CalendarLink], count: usize) -> [Side; 65]
    requires few { count ≤ 65 }
    requires there { count ≤ length links.now }
    ensures { take count result ≡ take count (sides_from_top links.now) }
{
    let mut sides = [Side::Left; 65];
    for place in 0..count {
        sides[place] = links[links.len() - 1 - place].side;
    }
    sides
}

/// No way among 2^64 seconds has more than 64 sides, so that the uppermost 65 pass a second where all of them do.
fn uppermost_tell()
    ensures { (p : ℕ) (sides : List Side) → p < 2 ^ 64 → 65 ≤ length sides →
        second_at p (take 65 sides) ≡ second_at p sides }
{
    one_answer();
    proper_fronts();
    short_ways();
}
