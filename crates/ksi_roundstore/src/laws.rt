//! What holds of the files of aggregators, and of one that forgot rounds, for the layers above to cite. These functions do
//! nothing.
ghost use Rattle.std.specs.Prelude.{◌≡◌, ◌≢◌, All, ◌<◌, ◌≤◌, ◌^◌, ◌⊎◌, ℕ, Bool, true, false, List, [], length, slice_get, Ok, Some};
ghost use Rattle.ksi_disk.specs.Images.{LeavesOnly};
ghost use Rattle.ksi_schedule.specs.Pieces.{Text};
ghost use Rattle.ksi_schedule.specs.Plans.{IsPlan, PlanState};
ghost use Rattle.ksi_schedule.specs.Printed.{line_of};
ghost use Rattle.ksi_wire.specs.AskedRounds.{aggregator_line_of};
ghost use Rattle.ksi_wire.specs.RoundLines.{FitsRound, round_words};
ghost use Rattle.ksi_wire.specs.declared.event.AggregatorLine.TheVariants.{Event};
ghost use Rattle.ksi_aggregator.specs.declared.event.RoundEvent.{RoundEvent};
ghost use Rattle.ksi_aggregator.specs.declared.fact.Fact.{Fact};
ghost use Rattle.ksi_aggregator.specs.declared.step.Step.{Step};
ghost use Rattle.ksi_aggregator.specs.Events.{event_second, MayTake, round_row};
ghost use Rattle.ksi_aggregator.specs.Issuing.{from_request, IsIssued, IsIssuedAt, NotIssued};
ghost use Rattle.ksi_aggregator.specs.Rounds.{AggregatorState, items_in, rounds_of, ChangesOnly};
ghost use Rattle.ksi_aggregator.specs.Rows.{RoundState, round_restarted};
ghost use Rattle.ksi_aggregator.specs.Lawful.{AreApart, AreLawful, with_new};
ghost use Rattle.ksi_aggregator.specs.Restored.{HasFacts, IsOfFacts};
ghost use Rattle.ksi_aggregator.specs.Settled.{IsSettled};
ghost use Rattle.ksi_aggtree.specs.declared.item.Item.{Item};
ghost use Rattle.ksi_roundstore.specs.Crashes.{IsRestarted, IsRestartedEither};
ghost use Rattle.ksi_roundstore.specs.Forgotten.{AreForgotten, closed_empty, IsGone, SayTheSame, SayTheSameOf};
ghost use Rattle.ksi_roundstore.specs.Headers.{empty_file};
ghost use Rattle.ksi_roundstore.specs.Left.{left_before, left_of};
ghost use Rattle.ksi_roundstore.specs.Opens.{IsOutside, IsRefused, OpensAs};
ghost use Rattle.ksi_roundstore.specs.declared.refusal.OpenRefusal.{OpenRefusal};
ghost use Rattle.ksi_roundstore.specs.StoreState.{StoreState};
ghost use Rattle.ksi_roundstore.specs.Stores.{IsFileBeforeOrAfter, IsFileOf, IsStoreOf};
ghost use Rattle.ksi_roundstore.specs.Takes.{fact_added, HasEither, HasStored, TookTurn};
ghost use Rattle.ksi_roundstore.specs.Written.{IsWritten};

use ksi_aggregator::laws::{
    facts_one_by_one, one_aggregator_of_facts, settled_rounds_stay, steps_are_lawful,
};
use ksi_disk::Disk;
use ksi_disk::laws::records_are_read_again;
use ksi_imprint::Compress;

/// A file is of one list of facts.
pub fn a_file_is_of_one_list_of_facts()
    ensures { (me : ℕ) (plan : PlanState) (facts others : List Fact) (file : List ℕ) → IsFileOf me plan facts file → IsFileOf me plan others file → facts ≡ others }
{}

/// An event that a line asks for is written by it, and may be taken by a store of facts, where the line has no line feed. The
/// premises are what `aggregator_line` says of a line.
pub fn lines_are_written()
    ensures { (plan : PlanState) (me : ℕ) (line : Text) (event : RoundEvent) → aggregator_line_of plan me line ≡ Ok (Event event) → line ≡ line_of (round_words event) → FitsRound event → All (λ b. b ≢ 10) line → IsWritten plan me event }
{}

/// A store of facts that takes an event is the store of these and of the event's, if any. A crash at any moment of the event
/// leaves a file of the facts before, with the event's or without. Each clause takes what clauses of `take` say: `turn`,
/// `stored` and `any_moment`.
pub fn stores_go_on<C: Compress, D: Disk>()
    ensures stored { (me : ℕ) (plan : PlanState) (facts : List Fact) (old new : StoreState D) (event : RoundEvent) (step : Step) → IsStoreOf D.content D.images me plan facts old → MayTake (rounds_of old.aggregator) event → event_second event < 2 ^ 63 →
        IsWritten plan me event → TookTurn C.image old.aggregator new.aggregator event step → HasStored D.content D.images step.fact old.log new.log → IsStoreOf D.content D.images me plan (with_new facts step.fact) new }
    ensures left { (me : ℕ) (plan : PlanState) (facts : List Fact) (old : StoreState D) (event : RoundEvent) (file : List ℕ) → IsStoreOf D.content D.images me plan facts old → MayTake (rounds_of old.aggregator) event → event_second event < 2 ^ 63 →
        IsWritten plan me event → HasEither (D.content old.log.disk) (fact_added C.image old.aggregator event) file → IsFileBeforeOrAfter me plan facts (fact_added C.image old.aggregator event) file }
{
    steps_are_lawful();
    one_aggregator_of_facts();
}

/// An aggregator that is of the facts in a file of all facts that an aggregator stored is that aggregator after a restart. One
/// that is of the facts in a file that has the fact of an event more, or not, is that aggregator after this event and a
/// restart, or after a restart alone.
pub fn a_crash_is_a_restart()
    ensures restarted { (me : ℕ) (plan : PlanState) (facts others : List Fact) (file : List ℕ) (aggregator other : AggregatorState) → HasFacts facts (rounds_of aggregator) → IsFileOf me plan facts file → IsFileOf me plan others file →
        IsOfFacts me others other → IsRestarted aggregator other }
    ensures left { (image : List ℕ → List ℕ) (me : ℕ) (plan : PlanState) (facts others : List Fact) (file : List ℕ) (aggregator other : AggregatorState) (event : RoundEvent) → HasFacts facts (rounds_of aggregator) → MayTake (rounds_of aggregator) event → event_second event < 2 ^ 63 →
        IsFileBeforeOrAfter me plan facts (fact_added image aggregator event) file → IsFileOf me plan others file → IsOfFacts me others other → IsRestartedEither image aggregator event other }
{
    a_file_is_of_one_list_of_facts();
    steps_are_lawful();
    one_aggregator_of_facts();
}

/// A crash at any moment of a `take`, and one behind a `take` that failed: the store that is then opened, over whatever image
/// is left, has the aggregator of the facts that were acknowledged before, as a restart leaves it, with the event in work or
/// without it. A crash between two events leaves it as a restart does. A crash while a file is opened leaves what might have
/// been left before. Each clause takes what a call's clauses say: `any_moment` and `opens`.
pub fn crashes_are_restarts<C: Compress, D: Disk, E: Disk>()
    ensures taking { (me : ℕ) (plan : PlanState) (facts : List Fact) (old new : StoreState D) (event : RoundEvent) (file : List ℕ) (opened : StoreState E) → IsStoreOf D.content D.images me plan facts old → MayTake (rounds_of old.aggregator) event →
        IsWritten plan me event → LeavesOnly D.moment D.images_since old.log.disk new.log.disk (HasEither (D.content old.log.disk) (fact_added C.image old.aggregator event)) → D.images_since new.log.disk (D.moment old.log.disk) file →
        OpensAs E.content E.images me plan file (Ok opened) → IsRestartedEither C.image old.aggregator event opened.aggregator }
    ensures failed { (me : ℕ) (plan : PlanState) (facts : List Fact) (old new : StoreState D) (event : RoundEvent) (file : List ℕ) (opened : StoreState E) → IsStoreOf D.content D.images me plan facts old → MayTake (rounds_of old.aggregator) event →
        IsWritten plan me event → LeavesOnly D.moment D.images_since old.log.disk new.log.disk (HasEither (D.content old.log.disk) (fact_added C.image old.aggregator event)) → D.images new.log.disk file →
        OpensAs E.content E.images me plan file (Ok opened) → IsRestartedEither C.image old.aggregator event opened.aggregator }
    ensures idle { (me : ℕ) (plan : PlanState) (facts : List Fact) (old : StoreState D) (file : List ℕ) (opened : StoreState E) → IsStoreOf D.content D.images me plan facts old → D.images old.log.disk file →
        OpensAs E.content E.images me plan file (Ok opened) → IsRestarted old.aggregator opened.aggregator }
    ensures opening { (old new : D) (file : List ℕ) → LeavesOnly D.moment D.images_since old new (D.images old) → D.images_since new (D.moment old) file → D.images old file }
{
    steps_are_lawful();
    one_aggregator_of_facts();
}

/// After `format` the file is one of no facts.
pub fn a_new_file_has_no_facts()
    ensures { (me : ℕ) (plan : PlanState) → me < length plan.parents → IsPlan plan → IsFileOf me plan [] (empty_file me plan.start) }
{
    facts_one_by_one();
    records_are_read_again();
}

/// A file of facts is opened, unless the disk fails or memory runs out.
pub fn files_of_facts_are_opened()
    ensures { (me : ℕ) (plan : PlanState) (facts : List Fact) (file : List ℕ) (refusal : OpenRefusal) → IsFileOf me plan facts file → IsRefused me plan file refusal → IsOutside refusal }
{}

/// A file is refused for one reason, unless the disk fails or memory runs out.
pub fn files_are_refused_for_one_reason()
    ensures { (me : ℕ) (plan : PlanState) (file : List ℕ) (one other : OpenRefusal) → IsRefused me plan file one → IsRefused me plan file other → (IsOutside one → ⊥) → (IsOutside other → ⊥) → one ≡ other }
{}

/// What is left of lawful facts is lawful, whichever rounds are forgotten. An aggregator of the facts left has the rounds of
/// one of all facts, but for those that are gone. So an aggregator that was stopped, and opened over what is left, has each
/// round that stays as a restart leaves it, and each settled one that is forgotten closed without items.
pub fn facts_left_are_lawful()
    ensures lawful { (forgotten : ℕ → Bool) (facts : List Fact) → AreLawful facts → AreLawful (left_of forgotten facts) }
    ensures rounds { (me before : ℕ) (facts : List Fact) (whole other : AggregatorState) → AreLawful facts → IsOfFacts me facts whole → IsOfFacts me (left_before before facts) other →
        AreForgotten before (rounds_of whole) (rounds_of other) }
    ensures stay { (me : ℕ) (forgotten : ℕ → Bool) (facts : List Fact) (rounds : ℕ → RoundState) (other : AggregatorState) (t : ℕ) → HasFacts facts rounds → IsOfFacts me (left_of forgotten facts) other →
        forgotten t ≡ false → rounds_of other t ≡ round_restarted (rounds t) }
    ensures gone { (me : ℕ) (forgotten : ℕ → Bool) (facts : List Fact) (rounds : ℕ → RoundState) (other : AggregatorState) (t : ℕ) → HasFacts facts rounds → IsOfFacts me (left_of forgotten facts) other →
        forgotten t ≡ true → IsSettled (rounds t) → rounds_of other t ≡ closed_empty }
{
    facts_one_by_one();
    one_aggregator_of_facts();
}

/// Nobody notices what an aggregator forgot: each event that might have come may come, is answered as it would have been,
/// stores the same fact and sends the same messages. So it is after each step and after a restart, and for events in any number.
pub fn forgetting_is_not_noticed()
    ensures may { (before : ℕ) (rounds forgot : ℕ → RoundState) (event : RoundEvent) → AreForgotten before rounds forgot → MayTake rounds event → MayTake forgot event }
    ensures alike { (image : List ℕ → List ℕ) (before : ℕ) (rounds forgot : ℕ → RoundState) (event : RoundEvent) → AreForgotten before rounds forgot →
        SayTheSame (round_row image event (forgot (event_second event))) (round_row image event (rounds (event_second event))) }
    ensures after { (image : List ℕ → List ℕ) (before : ℕ) (rounds forgot new new_forgot : ℕ → RoundState) (event : RoundEvent) → AreForgotten before rounds forgot →
        ChangesOnly rounds new (event_second event) (round_row image event (rounds (event_second event))).after →
        ChangesOnly forgot new_forgot (event_second event) (round_row image event (forgot (event_second event))).after → AreForgotten before new new_forgot }
    ensures restart { (before : ℕ) (rounds forgot : ℕ → RoundState) → AreForgotten before rounds forgot → AreForgotten before (λ t. round_restarted (rounds t)) (λ t. round_restarted (forgot t)) }
    ensures events { (image : List ℕ → List ℕ) (before : ℕ) (rounds forgot : ℕ → RoundState) (list : List RoundEvent) → AreForgotten before rounds forgot → SayTheSameOf image rounds forgot list }
{
    settled_rounds_stay();
}

/// What an aggregator that forgot rounds issues, it would have issued. Each signature that it would have issued it still issues,
/// unless the round of the signature is gone, which is of an earlier second (`kept`, `stays`). Of a request whose item is in a
/// round that is gone, it issues nothing: no other round has its number.
pub fn no_other_signature_is_issued()
    ensures no_other { (image : List ℕ → List ℕ) (before : ℕ) (rounds forgot : ℕ → RoundState) (number : ℕ) (bytes : List ℕ) → AreForgotten before rounds forgot → IsIssued image forgot number bytes → IsIssued image rounds number bytes }
    ensures kept { (image : List ℕ → List ℕ) (before : ℕ) (rounds forgot : ℕ → RoundState) (number second k : ℕ) (bytes : List ℕ) → AreForgotten before rounds forgot → before ≤ second →
        IsIssuedAt image (rounds second) number second k bytes → IsIssuedAt image (forgot second) number second k bytes }
    ensures stays { (image : List ℕ → List ℕ) (before : ℕ) (rounds forgot : ℕ → RoundState) (number second k : ℕ) (bytes : List ℕ) → AreForgotten before rounds forgot →
        IsIssuedAt image (rounds second) number second k bytes → IsIssuedAt image (forgot second) number second k bytes ⊎ IsGone before second (rounds second) (forgot second) }
    ensures gone { (before : ℕ) (rounds forgot : ℕ → RoundState) (number second k : ℕ) (item : Item) → AreForgotten before rounds forgot → AreApart (λ t. items_in (rounds t)) →
        IsGone before second (rounds second) (forgot second) → slice_get (items_in (rounds second)) k ≡ Some (from_request number item) → NotIssued forgot number }
{}
