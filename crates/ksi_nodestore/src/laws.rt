//! What holds of spellings and of node files, for the layers above to cite. These functions do nothing.
ghost use Rattle.std.specs.Prelude.{◌≡◌, ◌<◌, ℕ, List, [], Option, Some, Ok};
ghost use Rattle.ksi_synod.specs.CorePlans.{CorePlanState, IsCorePlan};
ghost use Rattle.ksi_corenode.specs.CoreState.{CoreState, state_of};
ghost use Rattle.ksi_corenode.specs.Events.{MayTake};
ghost use Rattle.ksi_corenode.specs.declared.event.CoreEvent.{CoreEvent};
ghost use Rattle.ksi_corenode.specs.Rows.{restart_row};
ghost use Rattle.ksi_corenode.specs.Restored.{HasFacts, IsOfFacts};
ghost use Rattle.ksi_nodestore.specs.Headers.{empty_file};
ghost use Rattle.ksi_disk.specs.Images.{LeavesOnly};
ghost use Rattle.ksi_nodestore.specs.Stores.{IsFileOf};
ghost use Rattle.ksi_nodestore.specs.StoreState.{IsStoreOf, StoreState};
ghost use Rattle.ksi_nodestore.specs.Takes.{fact_added, IsFileBeforeOrAfter};
ghost use Rattle.ksi_nodestore.specs.Crashes.{IsRestarted, IsRestartedEither};
ghost use Rattle.ksi_nodestore.specs.Opens.{IsOutside, IsRefused, OpensAs};
ghost use Rattle.ksi_nodestore.specs.declared.refusal.OpenRefusal.{OpenRefusal};
ghost use Rattle.ksi_corenode.specs.declared.fact.Fact.{Fact};
ghost use Rattle.ksi_nodestore.specs.Texts.{fact_text, IsReadOf, IsTextOf};

use ksi_corenode::laws::{facts_one_by_one, one_core_of_facts, steps_come_back};
use ksi_disk::Disk;
use ksi_disk::laws::records_are_read_again;
use ksi_imprint::Compress;

/// No two facts have one spelling, and what is spelled is read again.
#[tactic(auto, using(crate::proofs::Spelled::one_fact, crate::proofs::Spelled::read_again))]
pub fn spellings_are_read_again()
    ensures one { (one other : Fact) (bytes : List ℕ) → IsTextOf one bytes → IsTextOf other bytes → one ≡ other }
    ensures again { (fact : Fact) (bytes : List ℕ) (found : Option Fact) → IsTextOf fact bytes → IsReadOf bytes found → found ≡ Some fact }
{}

/// A file is of one list of facts. So a core that is made of the facts in a file of all facts that a core stored is that core
/// after a restart. One that is made of a file that has the fact of an event more, or not, is that core after this event and a
/// restart, or after a restart alone.
pub fn a_crash_is_a_restart()
    ensures one { (me : ℕ) (plan : CorePlanState) (facts others : List Fact) (file : List ℕ) → IsFileOf me plan facts file → IsFileOf me plan others file → facts ≡ others }
    ensures restarted { (image : List ℕ → List ℕ) (plan : CorePlanState) (facts others : List Fact) (file : List ℕ) (core other : CoreState) → HasFacts image plan facts core → IsFileOf core.me plan facts file →
        IsFileOf core.me plan others file → IsOfFacts image core.me plan others other → (t : ℕ) → state_of other t ≡ restart_row (state_of core t) }
    ensures left { (image : List ℕ → List ℕ) (plan : CorePlanState) (facts others : List Fact) (file : List ℕ) (core other : CoreState) (event : CoreEvent) → HasFacts image plan facts core → MayTake core event →
        IsFileBeforeOrAfter core.me plan facts (fact_added image core event) file → IsFileOf core.me plan others file → IsOfFacts image core.me plan others other → IsRestartedEither image core event other }
{
    one_core_of_facts();
    steps_come_back();
}

/// A crash at any moment of a `take`, and one behind a `take` that failed: the store that is then opened, over whatever image
/// is left, has the core of the facts that were acknowledged before, as a restart leaves it, with the event in work or without
/// it. A crash between two events leaves it as a restart does. A crash while a file is opened leaves what might have been left
/// before. Each clause takes what a call's clauses say: `stored`, `any_moment` and `opens`.
pub fn crashes_are_restarts<C: Compress, D: Disk, E: Disk>()
    ensures taking { (me : ℕ) (plan : CorePlanState) (facts : List Fact) (old new : StoreState D) (event : CoreEvent) (file : List ℕ) (opened : StoreState E) → IsStoreOf C.image D.content D.images me plan facts old → MayTake old.core event →
        LeavesOnly D.moment D.images_since old.log.disk new.log.disk (IsFileBeforeOrAfter me plan facts (fact_added C.image old.core event)) → D.images_since new.log.disk (D.moment old.log.disk) file →
        OpensAs C.image E.content E.images me plan file (Ok opened) → IsRestartedEither C.image old.core event opened.core }
    ensures failed { (me : ℕ) (plan : CorePlanState) (facts : List Fact) (old new : StoreState D) (event : CoreEvent) (file : List ℕ) (opened : StoreState E) → IsStoreOf C.image D.content D.images me plan facts old → MayTake old.core event →
        LeavesOnly D.moment D.images_since old.log.disk new.log.disk (IsFileBeforeOrAfter me plan facts (fact_added C.image old.core event)) → D.images new.log.disk file →
        OpensAs C.image E.content E.images me plan file (Ok opened) → IsRestartedEither C.image old.core event opened.core }
    ensures idle { (me : ℕ) (plan : CorePlanState) (facts : List Fact) (old : StoreState D) (file : List ℕ) (opened : StoreState E) → IsStoreOf C.image D.content D.images me plan facts old → D.images old.log.disk file →
        OpensAs C.image E.content E.images me plan file (Ok opened) → IsRestarted old.core opened.core }
    ensures opening { (old new : D) (file : List ℕ) → LeavesOnly D.moment D.images_since old new (D.images old) → D.images_since new (D.moment old) file → D.images old file }
{
    one_core_of_facts();
    steps_come_back();
}

/// After `format` the file is one of no facts.
pub fn a_new_file_has_no_facts()
    ensures { (me : ℕ) (plan : CorePlanState) → me < plan.cores → IsCorePlan plan → IsFileOf me plan [] (empty_file me plan.cores plan.start) }
{
    facts_one_by_one();
    records_are_read_again();
}

/// A file of facts is opened, unless the disk fails or memory runs out.
pub fn files_of_facts_are_opened()
    ensures { (me : ℕ) (plan : CorePlanState) (facts : List Fact) (file : List ℕ) (refusal : OpenRefusal) → IsFileOf me plan facts file → IsRefused me plan file refusal → IsOutside refusal }
{}

/// A file is refused for one reason, unless the disk fails or memory runs out.
pub fn files_are_refused_for_one_reason()
    ensures { (me : ℕ) (plan : CorePlanState) (file : List ℕ) (one other : OpenRefusal) → IsRefused me plan file one → IsRefused me plan file other → (IsOutside one → ⊥) → (IsOutside other → ⊥) → one ≡ other }
{}
