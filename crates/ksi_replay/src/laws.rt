//! The laws of histories' journals, of the mirrors of their cores, and of generated schedules. None of these functions does anything.
ghost use Rattle.std.specs.Prelude.{◌≡◌, ◌≢◌, ◌<◌, ℕ, List, None, Ok, ◌≤◌, ◌++◌, ◌∷◌, Some, slice_get, ◌^◌};
ghost use Rattle.std.specs.List.{AllByRecursion};
ghost use Rattle.ksi_imprint.specs.Imprints.{IsImprint, imprint_of};
ghost use Rattle.ksi_tlv.specs.Spelling.{AreBytes};
ghost use Rattle.ksi_schedule.specs.Plans.{IsPlan, PlanState};
ghost use Rattle.ksi_schedule.specs.Events.{History, AreEvents, AskForImprints, IsEvent};
ghost use Rattle.ksi_schedule.specs.Schedules.{IsHistory};
ghost use Rattle.ksi_schedule.specs.Spelled.{IsScheduleText};
ghost use Rattle.ksi_journal.specs.Journal.{IsJournal, Contents, root_at};
ghost use Rattle.ksi_world.specs.Histories.{held_in, world_of, after};
ghost use Rattle.ksi_mirror.specs.Mirrors.{MirrorState, root_of, list_of, IsMirror};
ghost use Rattle.ksi_mirror.specs.Merging.{MayMerge};
ghost use Rattle.ksi_mirror.specs.Whole.{whole_of};
ghost use Rattle.ksi_replay.specs.Journals.{journal_of};
ghost use Rattle.ksi_replay.specs.Mirrors.{sealed_in, mirror_of};
ghost use Rattle.ksi_replay.specs.Gatherings.{Gathering, ComesTo, HasAllEnds, seconds_alone};
ghost use Rattle.ksi_aggtree.specs.declared.chains.node.Node.{Node};
ghost use Rattle.ksi_aggtree.specs.declared.chains.link.Link.{Link};
ghost use Rattle.ksi_calendar.specs.Covered.{IsCovered, covered_root};
ghost use Rattle.ksi_signature.specs.declared.above.Above.{Above};
ghost use Rattle.ksi_signature.specs.Issued.{issued, own_chain};
ghost use Rattle.ksi_signature.specs.declared.answer.Answer.TheVariants.{Published};
ghost use Rattle.ksi_corenode.specs.Rows.{publish_answer};
ghost use Rattle.ksi_verifier.specs.ChainChecks.{aggregated};
ghost use Rattle.ksi_schedule.specs.declared.event.Event.{Event};
ghost use Rattle.ksi_extender.specs.Extended.{extended};
ghost use Rattle.ksi_world.specs.declared.outcome.Asked.{Asked};
ghost use Rattle.ksi_world.specs.Joined.{ChainsClimb};
ghost use Rattle.ksi_world.specs.Records.{issued_of, kept_root};
ghost use Rattle.ksi_replay.specs.HoldsOver.{HoldsOver};
ghost use Rattle.ksi_replay.specs.Joined.{IsPublished, Joined};
ghost use Rattle.ksi_replay.specs.Lasting.{AreNotBare, KeepsRoots, LastsTo, Publish};
ghost use Rattle.ksi_replay.specs.declared.manner.Manner as way;
ghost use Rattle.ksi_replay.specs.Making.{Making, happen, messages};
ghost use Rattle.ksi_replay.specs.Generate.{DeliversAll, delivers, enough, generated, generated_within, header};

use ksi_auditor::laws::{audit_shows, decided_tells};
use ksi_calendar::laws::{more_is_known, one_chain, one_climb, one_covered};
use ksi_extender::laws::{covered_is_extended, extended_is_accepted, extension_is_bytes};
use ksi_imprint::laws::hashes_are_bytes;
use ksi_journal::laws::calendar_is_covered;
use ksi_laws_facts::laws::history_is_recalled;
use ksi_mirror::laws::mirror_is_what_it_has;
use ksi_schedule::laws::spelled_is_schedule;
use ksi_signature::laws::{issued_is_signature, round_links_are_not_bare};
use ksi_verifier::laws::aggregation;
use ksi_world::laws::{
    agreement, answered_roots, held_stays, history_is_of_bytes, issued_is_carried,
    issued_is_joined, issued_is_short, kept_is_listed, published_is_listed, published_roots,
    requests_are_few, responses_climb, sealed_is_listed, sealed_stays, validity,
};

/// The journal of every history is one, whatever is lost, late or repeated and whoever restarts, where what is hashed are
/// imprints, of bytes; and so it is of every history that a schedule spells, over SHA-256.
pub fn history_has_a_journal()
    ensures any { (image : List ℕ → List ℕ) (history : History) →
        ((text : List ℕ) → IsImprint (image text)) → ((text : List ℕ) → AreBytes (image text)) → IsHistory history →
        IsJournal image (journal_of image history) }
    ensures spelled { (schedule : List ℕ) (history : History) → IsScheduleText schedule history →
        IsJournal imprint_of (journal_of imprint_of history) }
{
    hashes_are_bytes();
    history_is_of_bytes();
    issued_is_short();
    kept_is_listed();
    published_is_listed();
    requests_are_few();
    spelled_is_schedule();
}

/// The roots of the journal of every history are bytes, where what is hashed are.
pub fn journal_is_of_bytes()
    ensures { (image : List ℕ → List ℕ) (history : History) → ((text : List ℕ) → AreBytes (image text)) → IsHistory history →
        AllByRecursion (λ kept. AreBytes kept.root) (journal_of image history).seconds }
{
    history_is_of_bytes();
}

/// The mirror of a core of a history has the plan's start, for each second the root that the core holds, and for each
/// second the list of items that it sealed, if there are any; nothing of other cores.
pub fn mirror_is_of_its_core()
    ensures start { (image : List ℕ → List ℕ) (history : History) (core : ℕ) → (mirror_of image history core).start ≡ history.plan.start }
    ensures roots { (image : List ℕ → List ℕ) (history : History) → IsPlan history.plan → AreEvents history.plan history.events →
        (core t : ℕ) → root_of (mirror_of image history core) t ≡ held_in (world_of image history) core t }
    ensures lists { (image : List ℕ → List ℕ) (history : History) → IsPlan history.plan → AreEvents history.plan history.events →
        (core t : ℕ) → list_of (mirror_of image history core) t core ≡ sealed_in (world_of image history) core t }
    ensures others { (image : List ℕ → List ℕ) (history : History) (core t j : ℕ) → j ≢ core →
        list_of (mirror_of image history core) t j ≡ None }
{
    validity();
    sealed_is_listed();
}

/// The mirror of each core of every history is one, where what is hashed are imprints; and so it is of every history that a
/// schedule spells, over SHA-256. So its text is a mirror's file.
pub fn history_has_mirrors()
    ensures any { (image : List ℕ → List ℕ) (history : History) → ((text : List ℕ) → IsImprint (image text)) → IsHistory history →
        (core : ℕ) → core < history.plan.cores → IsMirror (mirror_of image history core) }
    ensures spelled { (schedule : List ℕ) (history : History) → IsScheduleText schedule history →
        (core : ℕ) → core < history.plan.cores → IsMirror (mirror_of imprint_of history core) }
{
    agreement();
    hashes_are_bytes();
    issued_is_carried();
    sealed_is_listed();
    spelled_is_schedule();
}

/// Mirrors of any cores of one history at any moments merge, in any order, and so does whatever such mirrors were merged to.
/// Where the mirrors of all cores at the end are among them, they come to one mirror, whatever the order and whatever else
/// is among them; and its journal has the start and the kept seconds of the journal of the history.
pub fn mirrors_of_a_history_merge()
    ensures merge { (image : List ℕ → List ℕ) (history : History) → IsPlan history.plan → AreEvents history.plan history.events →
        (order other : Gathering) (one two : MirrorState) → ComesTo image history order one → ComesTo image history other two →
        MayMerge one two }
    ensures once { (image : List ℕ → List ℕ) (history : History) → IsPlan history.plan → AreEvents history.plan history.events →
        (order other : Gathering) (one two : MirrorState) → ComesTo image history order one → ComesTo image history other two →
        HasAllEnds history.plan order → HasAllEnds history.plan other → IsMirror one → IsMirror two → one ≡ two }
    ensures whole { (image : List ℕ → List ℕ) (history : History) → IsPlan history.plan → AreEvents history.plan history.events →
        (order : Gathering) (merged : MirrorState) → ComesTo image history order merged → HasAllEnds history.plan order → IsMirror merged →
        whole_of image merged ≡ Ok (seconds_alone (journal_of image history)) }
{
    agreement();
    held_stays();
    mirror_is_what_it_has();
    sealed_is_listed();
    sealed_stays();
    validity();
}

/// Chains without a bare link that climb from an imprint at level 0 to a node pass the checks of aggregation chains, as they
/// are issued: they lead to this node, in the second that they were issued for.
pub fn issued_is_aggregated()
    ensures { (image : List ℕ → List ℕ) (second : ℕ) (input : List ℕ) (links : List Link) (above : Above) (top : Node) →
        AreNotBare (own_chain input links ∷ above.chains) →
        ChainsClimb image (record { imprint = input; level = 0 }) (own_chain input links ∷ above.chains) top →
        aggregated image (issued second input links above) ≡ Ok (record { time = second; node = top }) }
{
    aggregation();
}

/// After every history, each issued signature is extended to any covered second from its own on, and is then accepted;
/// and an audit of it returns the place of the request's imprint, or a clash: over any journal that keeps what the cores
/// keep, if the signature is bytes; so over the history's own, if the hashed values are imprints, of bytes.
pub fn issued_lasts()
    ensures over { (image : List ℕ → List ℕ) (history : History) (journal : Contents) → ((bytes : List ℕ) → IsImprint (image bytes)) →
        IsPlan history.plan → AreEvents history.plan history.events → AskForImprints history.events →
        IsJournal image journal → KeepsRoots history.plan (world_of image history) journal →
        (number : ℕ) (asked : Asked) (text : List ℕ) → slice_get (world_of image history).requests number ≡ Some asked →
        issued_of image (world_of image history) number ≡ Some text → AreBytes text →
        (p : ℕ) → asked.second ≤ p → IsCovered (kept_root history.plan (world_of image history)) history.plan.start p →
        LastsTo image journal asked text p }
    ensures own { (image : List ℕ → List ℕ) (history : History) →
        ((bytes : List ℕ) → IsImprint (image bytes)) → ((bytes : List ℕ) → AreBytes (image bytes)) → IsHistory history →
        (number : ℕ) (asked : Asked) (text : List ℕ) → slice_get (world_of image history).requests number ≡ Some asked →
        issued_of image (world_of image history) number ≡ Some text →
        (p : ℕ) → asked.second ≤ p → IsCovered (kept_root history.plan (world_of image history)) history.plan.start p →
        LastsTo image (journal_of image history) asked text p }
{
    history_has_a_journal();
    history_is_of_bytes();
    journal_keeps_roots();
    aggregation();
    round_links_are_not_bare();
    issued_is_signature();
    issued_is_carried();
    calendar_is_covered();
    more_is_known();
    one_chain();
    one_climb();
    one_covered();
    covered_is_extended();
    extended_is_accepted();
    decided_tells();
    audit_shows();
}

/// What any core answers to `publish` with a root, at any moment, is a second that is covered at the end, with the root of
/// the journal's calendar to it. So two such answers for one second are the same.
pub fn answered_is_kept()
    ensures { (image : List ℕ → List ℕ) (plan : PlanState) (before later : List Event) (journal : Contents) →
        IsPlan plan → AreEvents plan (before ++ later) → IsJournal image journal →
        KeepsRoots plan (after image plan (before ++ later)) journal →
        (core p : ℕ) (root : List ℕ) → core < plan.cores → plan.start ≤ p →
        publish_answer image (held_in (after image plan before) core) plan.start p ≡ Published root →
        IsPublished image journal p root }
{
    answered_roots();
    more_is_known();
}

/// Each pair that was published, at any moment, is a second that is covered at the end, with the root of the journal's
/// calendar to it, whichever core published it. So what was published publishes each of its seconds as the journal has it.
pub fn published_is_kept()
    ensures covered { (image : List ℕ → List ℕ) (plan : PlanState) (before later : List Event) (journal : Contents) →
        IsPlan plan → AreEvents plan (before ++ later) → KeepsRoots plan (after image plan (before ++ later)) journal →
        (k p : ℕ) (root : List ℕ) → slice_get (after image plan before).published k ≡ Some (p, root) → IsCovered (root_at journal) journal.start p }
    ensures root { (image : List ℕ → List ℕ) (plan : PlanState) (before later : List Event) (journal : Contents) →
        IsPlan plan → AreEvents plan (before ++ later) → IsJournal image journal →
        KeepsRoots plan (after image plan (before ++ later)) journal →
        (k p : ℕ) (root : List ℕ) → slice_get (after image plan before).published k ≡ Some (p, root) →
        root ≡ covered_root image (root_at journal) journal.start p }
    ensures publish { (image : List ℕ → List ℕ) (plan : PlanState) (before later : List Event) (journal : Contents) →
        IsPlan plan → AreEvents plan (before ++ later) → IsJournal image journal →
        KeepsRoots plan (after image plan (before ++ later)) journal →
        (k p : ℕ) (root : List ℕ) → slice_get (after image plan before).published k ≡ Some (p, root) →
        Publish image journal p (after image plan before).published }
{
    more_is_known();
    published_roots();
}

/// After every history, what was issued lasts and what was published is kept: over any journal that keeps what the cores
/// keep, so over the history's own. What is hashed are imprints, of bytes, as those of SHA-256 are, and then every history
/// that a schedule spells is so.
pub fn history_is_joined()
    ensures over { (image : List ℕ → List ℕ) (history : History) (journal : Contents) →
        ((bytes : List ℕ) → IsImprint (image bytes)) → ((bytes : List ℕ) → AreBytes (image bytes)) → IsHistory history →
        IsJournal image journal → KeepsRoots history.plan (world_of image history) journal → Joined image history journal }
    ensures own { (image : List ℕ → List ℕ) (history : History) →
        ((bytes : List ℕ) → IsImprint (image bytes)) → ((bytes : List ℕ) → AreBytes (image bytes)) → IsHistory history →
        Joined image history (journal_of image history) }
    ensures spelled { (schedule : List ℕ) (history : History) → IsScheduleText schedule history →
        Joined imprint_of history (journal_of imprint_of history) }
{
    hashes_are_bytes();
    spelled_is_schedule();
    history_has_a_journal();
    history_is_of_bytes();
    journal_keeps_roots();
    more_is_known();
    issued_is_joined();
    issued_lasts();
    answered_is_kept();
    published_is_kept();
}

/// All of this holds over every history, where what is hashed are imprints, of bytes; so over every history that a schedule
/// spells.
pub fn all_holds()
    ensures any { (image : List ℕ → List ℕ) (history : History) →
        ((bytes : List ℕ) → IsImprint (image bytes)) → ((bytes : List ℕ) → AreBytes (image bytes)) → IsHistory history →
        HoldsOver image history }
    ensures spelled { (schedule : List ℕ) (history : History) → IsScheduleText schedule history → HoldsOver imprint_of history }
{
    hashes_are_bytes();
    spelled_is_schedule();
    agreement();
    held_stays();
    history_is_recalled();
    validity();
    responses_climb();
    history_is_joined();
}

/// Whatever an issued signature is extended to, over the history's own journal, are bytes.
pub fn extensions_are_bytes()
    ensures own { (image : List ℕ → List ℕ) (history : History) →
        ((bytes : List ℕ) → IsImprint (image bytes)) → ((bytes : List ℕ) → AreBytes (image bytes)) → IsHistory history →
        (number : ℕ) (text : List ℕ) → issued_of image (world_of image history) number ≡ Some text →
        (p : ℕ) (extension : List ℕ) → extended image (journal_of image history) text p ≡ Ok extension → AreBytes extension }
    ensures spelled { (schedule : List ℕ) (history : History) → IsScheduleText schedule history →
        (number : ℕ) (text : List ℕ) → issued_of imprint_of (world_of imprint_of history) number ≡ Some text →
        (p : ℕ) (extension : List ℕ) → extended imprint_of (journal_of imprint_of history) text p ≡ Ok extension → AreBytes extension }
{
    hashes_are_bytes();
    spelled_is_schedule();
    history_is_of_bytes();
    journal_is_of_bytes();
    extension_is_bytes();
}

/// The journal of a history keeps the roots that its cores keep.
pub fn journal_keeps_roots()
    ensures { (image : List ℕ → List ℕ) (history : History) → IsPlan history.plan → AreEvents history.plan history.events →
        KeepsRoots history.plan (world_of image history) (journal_of image history) }
{
    validity();
}

/// Whatever has happened in this plan, and whatever happens next: where each message since is delivered, whether once or
/// as draws say, this goes on until none is left, and those that are looked at are enough for it.
#[tactic(auto, using(crate::proofs::Ending::all_delivered))]
pub fn none_is_left()
    ensures { (m : Making) (event : Event) (manner : way.Manner) → m.history.plan ≡ header → AreEvents header m.history.events → IsEvent header event →
        DeliversAll manner (messages m).0 (happen event m).1 (delivers enough manner (messages m).0 (happen event m).1).1 }
{}

/// No bound is reached: with any greater bound on the messages that are looked at, and any number of places in the stream
/// from 2^21 on, the schedule of a number is the same.
#[tactic(auto, using(crate::proofs::Unbounded::same_within))]
pub fn no_bound_is_reached()
    ensures { (places most number : ℕ) → 2 ^ 21 ≤ places → enough ≤ most → generated_within places most number ≡ generated number }
{}
