// The core of the facts that records spell.
ghost use Rattle.std.specs.Prelude.{◌≡◌, ◌<◌, ◌+◌, ℕ, List, length, IfOk};
ghost use Rattle.ksi_synod.specs.CorePlans.{CorePlanState};
ghost use Rattle.ksi_corenode.specs.declared.fact.Fact.{Fact};
ghost use Rattle.ksi_corenode.specs.Lawful.{AreLawful};
ghost use Rattle.ksi_corenode.specs.Restored.{IsOfFacts};
ghost use Rattle.ksi_disk.specs.Gates.{records_text};
ghost use Rattle.ksi_nodestore.specs.Stores.{GoesOn};
ghost use Rattle.ksi_nodestore.specs.Opens.{FoldsAs};

use crate::{OpenRefusal, read_fact};
use ksi_corenode::laws::{facts_one_by_one, one_core_of_facts};
use ksi_corenode::{Core, CorePlan};
use ksi_disk::Records;
use ksi_imprint::{Compress, NoMemory};
use std::alloc::Global;

/// The core of the facts that the records spell, which follow a header and end at this place.
pub(crate) fn fold_records<C: Compress>(
    alloc: Global,
    me: u8,
    plan: &CorePlan,
    records: &Records,
    end: u64,
) -> Result<Core<C>, OpenRefusal>
    requires member { me < plan.now.cores }
    requires end { 18 + length (records_text records.now) ≡ end }
    ensures { FoldsAs C.image me plan.now records.now result }
{
    one_core_of_facts();
    facts_one_by_one();
    let mut core = Core::new(alloc, me, plan);
    let mut place = 18;
    'folding: for k in 0..records.len() {
        let content = records.get(k);
        if !fold_record(alloc, &mut core, content)? {
            return Err(OpenRefusal::Malformed(place));
        }
        place += 5 + content.len() as u64;
    }
    Ok(core)
}

/// Stores the fact of a record, where it spells one that is lawful after those before.
fn fold_record<C: Compress>(
    alloc: Global,
    core: &mut Core<C>,
    content: &[u8],
) -> Result<bool, NoMemory>
    ensures { IfOk result (λ stored. (me : ℕ) (plan : CorePlanState) (facts : List Fact) → AreLawful plan.cores plan.start facts → IsOfFacts C.image me plan facts core.old → GoesOn C.image me plan facts content.now core.new stored) }
{
    one_core_of_facts();
    facts_one_by_one();
    match read_fact(alloc, content)? {
        None => Ok(false),
        Some(fact) => {
            if core.may_store(&fact) {
                core.store(&fact)?;
                Ok(true)
            } else {
                Ok(false)
            }
        }
    }
}
