ghost use Rattle.std.specs.Prelude.{◌≡◌, ◌<◌, length};
ghost use Rattle.ksi_signature.specs.PartsLeft.{parts_left};
ghost use Rattle.ksi_verifier.specs.ChainChecks.{same_parts};
ghost use Rattle.ksi_verifier.specs.Chains.{without_last};

use crate::refusal::Refusal;
use ksi_signature::IndexParts;

/// The first place where two lists of parts differ: chain `k`'s index without its last part, and the index of the chain
/// above.
pub(crate) fn compare_parts(k: u64, lower: &[u64], higher: &[u64]) -> Result<(), Refusal>
    ensures { result ≡ same_parts k 0 lower.now higher.now }
{
    let mut place = 0;
    'parts: while place < lower.len() && place < higher.len() {
        if lower[place] != higher[place] {
            return Err(Refusal::IndexOrder {
                chain: k,
                place: place as u64,
                lower: Some(lower[place]),
                higher: Some(higher[place]),
            });
        }
        place += 1;
    }
    if place < lower.len() {
        return Err(Refusal::IndexOrder {
            chain: k,
            place: place as u64,
            lower: Some(lower[place]),
            higher: None,
        });
    }
    if place < higher.len() {
        return Err(Refusal::IndexOrder {
            chain: k,
            place: place as u64,
            lower: None,
            higher: Some(higher[place]),
        });
    }
    Ok(())
}

/// The same of two indexes in turn: chain `k`'s, which has so many parts, without the last of them, and that of the chain
/// above.
pub(crate) fn compare_lent(
    k: u64,
    count: usize,
    lower: IndexParts<'_>,
    higher: IndexParts<'_>,
) -> Result<(), Refusal>
    requires some { 0 < count }
    requires count { length (parts_left lower) ≡ count }
    ensures { result ≡ same_parts k 0 (without_last (parts_left lower.entry)) (parts_left higher.entry) }
{
    let mut lower = lower;
    let mut higher = higher;
    let mut place = 0;
    'parts: while place + 1 < count {
        let low = lower.next();
        let high = higher.next();
        if low != high {
            return Err(Refusal::IndexOrder {
                chain: k,
                place: place as u64,
                lower: low,
                higher: high,
            });
        }
        place += 1;
    }
    match higher.next() {
        None => Ok(()),
        Some(part) => Err(Refusal::IndexOrder {
            chain: k,
            place: place as u64,
            lower: None,
            higher: Some(part),
        }),
    }
}
