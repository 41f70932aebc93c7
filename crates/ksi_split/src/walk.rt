ghost use Rattle.std.specs.Prelude.{◌≡◌, ◌<◌, ◌≤◌, ◌+◌, ◌^◌, ◌↔◌, ℕ, length};
ghost use Rattle.ksi_split.specs.Ways.{way_of};
ghost use Rattle.ksi_split.specs.Ways.{IsWay, NamesSecond, PassesLeaf, EndsAbove};
ghost use Rattle.ksi_split.specs.Parts.{second_at};
ghost use Rattle.ksi_split.specs.declared.fault.ShapeFault.TheVariants.{TooMany, TooFew};

use crate::fault::ShapeFault;
use crate::power::{high_bit, split};
use crate::side::Side;
use crate::sides::Way;

/// The sides from the top of a tree of `n` leaves to leaf `t`, the first one being leaf 0.
pub fn way(t: u64, n: u64) -> Way
    requires within { t < n }
    requires few { n ≤ 2 ^ 63 }
    ensures way { IsWay t n result }
    ensures length { length result ≤ 63 }
    ensures value { result ≡ way_of t n }
{
    let mut sides = Way::empty();
    let mut at = t;
    let mut size = n;
    while size > 1 {
        let half = split(size);
        if at < half {
            sides.push(Side::Left);
            size = half;
        } else {
            sides.push(Side::Right);
            at -= half;
            size -= half;
        }
    }
    sides
}

/// The second that the sides of a calendar hash chain name, from its top link down, where the calendar is that of the
/// seconds from 0 to `p`.
///
/// # Errors
/// `TooMany(place)` where the sides before the one at `place` are already the way to a second, and `TooFew(rest)`
/// where the sides end at a part that has `rest` seconds more than one.
pub fn second_of(p: u64, sides: &[Side]) -> Result<u64, ShapeFault>
    ensures second { (t : ℕ) → (result ≡ Ok t) ↔ NamesSecond p sides.now t }
    ensures too_many { (place : ℕ) → (result ≡ Err (TooMany place)) ↔ PassesLeaf p sides.now place }
    ensures too_few { (rest : ℕ) → (result ≡ Err (TooFew rest)) ↔ EndsAbove p sides.now rest }
    ensures value { result ≡ second_at p sides.now }
{
    let mut rest = p;
    let mut second = 0;
    for (place, side) in sides.iter().enumerate() {
        if rest == 0 {
            return Err(ShapeFault::TooMany(place));
        }
        let half = high_bit(rest);
        match side {
            Side::Left => rest = half - 1,
            Side::Right => {
                second += half;
                rest -= half;
            }
        }
    }
    if rest == 0 {
        Ok(second)
    } else {
        Err(ShapeFault::TooFew(rest))
    }
}
