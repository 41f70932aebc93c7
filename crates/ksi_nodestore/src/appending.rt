// A fact is appended to the file of a core.
ghost use Rattle.std.specs.Prelude.{◌≡◌, ◌⊎◌, ◌≤◌, ◌<◌, ◌+◌, ◌++◌, ◌^◌, ℕ, List, [], ◌∷◌, true, length, IfSome, OnOk, OnErr, IsOk};
ghost use Rattle.ksi_synod.specs.CorePlans.{CorePlanState};
ghost use Rattle.ksi_corenode.specs.declared.fact.Fact.{Fact};
ghost use Rattle.ksi_corenode.specs.Lawful.{stored_by, IsLawful};
ghost use Rattle.ksi_nodestore.specs.Takes.{AffordsFor, AffordsMost, HasKept, IsFileBeforeOrAfter, IsReady, SpendsFor};
ghost use Rattle.ksi_disk.specs.Images.{LeavesOnly};
ghost use Rattle.ksi_disk.specs.Costs.{Affords, DiskCounts, Spends};
ghost use Rattle.ksi_disk.specs.Logs.{IsSettled};
ghost use Rattle.ksi_nodestore.specs.Texts.{fact_text};
ghost use Rattle.ksi_nodestore.specs.Writing.{CanSpell, most_bytes};
ghost use Rattle.ksi_nodestore.specs.Stores.{IsFileOf};
ghost use Rattle.ksi_nodestore.specs.Opens.{IsLogOf};
ghost use Rattle.ksi_nodestore.specs.Spelling.{node_text};

use crate::writing::put_fact;
use ksi_corenode::Fact;
use ksi_corenode::laws::facts_one_by_one;
use ksi_disk::laws::records_stand_one_after_the_other;
use ksi_disk::{Disk, DiskFailed, GateLog, Record};

/// Appends the record of a fact that is lawful after those of the file.
pub(crate) fn append_fact<D: Disk>(
    log: &mut GateLog<D>,
    record_: Record,
    fact: &Fact,
) -> Result<(), DiskFailed>
    requires settled { IsSettled D.content D.images log.old }
    requires empty { record_.content ≡ [] }
    requires room { most_bytes fact.now.what ≤ record_.room }
    requires lawful { CanSpell fact.now.what }
    ensures kept { (me : ℕ) (plan : CorePlanState) (facts : List Fact) → IsLogOf D.content D.images me plan facts log.old → IsLawful plan.cores plan.start (stored_by facts fact.now.second) fact.now → OnOk result (IsLogOf D.content D.images me plan (facts ++ fact.now ∷ []) log.new) }
    ensures any_moment { (me : ℕ) (plan : CorePlanState) (facts : List Fact) → IsLogOf D.content D.images me plan facts log.old → IsLawful plan.cores plan.start (stored_by facts fact.now.second) fact.now →
        LeavesOnly D.moment D.images_since log.old.disk log.new.disk (λ image. IsFileOf me plan facts image ⊎ IsFileOf me plan (facts ++ fact.now ∷ []) image) }
    ensures exact { (me : ℕ) (plan : CorePlanState) (facts : List Fact) → IsLogOf D.content D.images me plan facts log.old → D.content log.old.disk ≡ node_text me plan facts → OnOk result (D.content log.new.disk ≡ node_text me plan (facts ++ fact.now ∷ [])) }
    ensures spent { OnErr result (log.new.is_spent ≡ true) }
    ensures counted { DiskCounts (D.faults log.old.disk) (D.faults log.new.disk) result }
    ensures costs { Spends (length (fact_text fact.now) + 6) 4 (D.meter log.old.disk) (D.meter log.new.disk) }
    ensures sure { Affords (length (fact_text fact.now) + 6) 4 (D.meter log.old.disk) → IsOk result }
    ensures enough { Affords (most_bytes fact.now.what + 6) 4 (D.meter log.old.disk) → IsOk result }
{
    facts_one_by_one();
    records_stand_one_after_the_other();
    let mut record_ = record_;
    put_fact(&mut record_, fact);
    log.append(record_)
}

/// Appends the record of a fact, if there is one.
pub(crate) fn keep<D: Disk>(
    log: &mut GateLog<D>,
    record_: Option<Record>,
    fact: &Option<Fact>,
) -> Result<(), DiskFailed>
    requires settled { IsSettled D.content D.images log.old }
    requires ready { IsReady record_ fact.now }
    ensures kept { (me : ℕ) (plan : CorePlanState) (facts : List Fact) → IsLogOf D.content D.images me plan facts log.old → IfSome fact.now (λ fact. IsLawful plan.cores plan.start (stored_by facts fact.second) fact) → OnOk result (HasKept D.content D.images me plan facts fact.now log.old log.new) }
    ensures any_moment { (me : ℕ) (plan : CorePlanState) (facts : List Fact) → IsLogOf D.content D.images me plan facts log.old → IfSome fact.now (λ fact. IsLawful plan.cores plan.start (stored_by facts fact.second) fact) →
        LeavesOnly D.moment D.images_since log.old.disk log.new.disk (IsFileBeforeOrAfter me plan facts fact.now) }
    ensures spent { OnErr result (log.new.is_spent ≡ true) }
    ensures counted { DiskCounts (D.faults log.old.disk) (D.faults log.new.disk) result }
    ensures costs { SpendsFor fact.now (D.meter log.old.disk) (D.meter log.new.disk) }
    ensures sure { AffordsFor fact.now (D.meter log.old.disk) ⊎ AffordsMost fact.now (D.meter log.old.disk) → IsOk result }
{
    match fact {
        None => Ok(()),
        Some(fact) => match record_ {
            Some(record_) => append_fact(log, record_, fact),
            None => unreachable!(),
        },
    }
}
