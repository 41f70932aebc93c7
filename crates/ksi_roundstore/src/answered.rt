// Which rounds have a response by the records of a file.
ghost use Rattle.std.specs.Prelude.{◌≡◌, ◌||◌, ◌&&◌, ℕ, List, IfOk, OnOk, is_some, nat_lt};
ghost use Rattle.std.specs.Ordering.{nat_cmp};
ghost use Rattle.std.specs.BTreeSet.{contains};
ghost use Rattle.ksi_aggregator.specs.declared.fact.Fact.{Fact};
ghost use Rattle.ksi_aggregator.specs.Lawful.{stored_by};
ghost use Rattle.ksi_roundstore.specs.Written.{AreTexts, IsTextOf};
ghost use Rattle.ksi_roundstore.specs.Kinds.{answers, kind_of};

use crate::kind::Kind;
use crate::kinds::kind_of;
use ksi_aggregator::laws::facts_one_by_one;
use ksi_disk::Records;
use ksi_imprint::NoMemory;
use ksi_schedule::Plan;
use std::alloc::Global;
use std::collections::BTreeSet;

/// The seconds whose rounds have a response by these records.
pub(crate) fn answered_in(
    alloc: Global,
    plan: &Plan,
    me: u32,
    records: &Records,
) -> Result<BTreeSet<u64>, NoMemory>
    ensures { IfOk result (λ answered. (facts : List Fact) → AreTexts plan.now me facts records.now → (t : ℕ) → contains nat_cmp answered t ≡ is_some (stored_by facts t).answered) }
{
    facts_one_by_one();
    let mut answered = BTreeSet::new(alloc);
    'noting: for k in 0..records.len() {
        note(alloc, plan, me, records.get(k), &mut answered)?;
    }
    Ok(answered)
}

/// Notes the second of a response.
fn note(
    alloc: Global,
    plan: &Plan,
    me: u32,
    content: &[u8],
    answered: &mut BTreeSet<u64>,
) -> Result<(), NoMemory>
    ensures { OnOk result ((fact : Fact) → IsTextOf plan.now me fact content.now → (t : ℕ) → contains nat_cmp answered.new t ≡ (answers (kind_of fact) t || contains nat_cmp answered.old t)) }
{
    let kind = kind_of(alloc, plan, me, content)?;
    note_kind(kind, answered)
}

fn note_kind(kind: Kind, answered: &mut BTreeSet<u64>) -> Result<(), NoMemory>
    ensures { OnOk result ((t : ℕ) → contains nat_cmp answered.new t ≡ (answers kind t || contains nat_cmp answered.old t)) }
{
    match kind {
        Kind::Answered(second) => {
            answered.insert(second)?;
            Ok(())
        }
        Kind::Closed(_) => Ok(()),
        Kind::Other => Ok(()),
    }
}

/// Whether the round of a second is forgotten: it is before another, and the round has a response.
pub(crate) fn is_forgotten(before: u64, answered: &BTreeSet<u64>, second: u64) -> bool
    ensures { result ≡ (nat_lt second before && contains nat_cmp answered.now second) }
{
    second < before && answered.contains(&second)
}
