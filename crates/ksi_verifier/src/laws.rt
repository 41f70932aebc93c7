//! What holds of the checks, for the layers above to cite. None of these functions does anything.
ghost use Rattle.std.specs.Prelude.{◌≡◌, ◌↔◌, ◌<◌, ℕ, List, length, Ok, Err, Option};
ghost use Rattle.ksi_split.specs.Ways.{NamesSecond, PassesLeaf, EndsAbove};
ghost use Rattle.ksi_split.specs.declared.fault.ShapeFault.TheVariants.{TooMany, TooFew};
ghost use Rattle.ksi_aggtree.specs.Climbing.{Climbs};
ghost use Rattle.ksi_aggtree.specs.declared.chains.node.Node.{Node};
ghost use Rattle.ksi_calendar.specs.Sides.{sides_from_top};
ghost use Rattle.ksi_signature.specs.Values.{Calendar};
ghost use Rattle.ksi_signature.specs.declared.signature.Signature.{Signature};
ghost use Rattle.ksi_verifier.specs.declared.aggregated.Aggregated.{Aggregated};
ghost use Rattle.ksi_verifier.specs.declared.proved.Proved as declared;
ghost use Rattle.ksi_verifier.specs.declared.refusal.Refusal.TheVariants.{IndexOrder, Level, ChainBreak, CalendarShape};
ghost use Rattle.ksi_verifier.specs.declared.verdict.Verdict.TheVariants as verdicts;
ghost use Rattle.ksi_verifier.specs.Chains.{PlainChain, at_level_zero, first_chain, higher_chains, plain_chains};
ghost use Rattle.ksi_verifier.specs.ChainChecks.{aggregated, index_order, joined_chains, tops};
ghost use Rattle.ksi_verifier.specs.Verdict.{second_named, signature_checked, verdict};
ghost use Rattle.ksi_verifier.specs.Accepted.{AreNested, ChainsLead, IsAccepted, IsAggregated, IsProved};
ghost use Rattle.ksi_verifier.specs.Leading.{BreaksAt, HaveTops, OutOfOrder, PassesIn, all_links};

/// No check fails exactly where the chains lead from the hash to the root of a second, the calendar chain from there to
/// the published root, and its sides name the second that each stated time is.
pub fn accepted()
    ensures { (image : List ℕ → List ℕ) (signature : Signature) (hash : List ℕ) (publications : List (ℕ × List ℕ)) (t : ℕ) →
        (verdict image signature hash publications ≡ verdicts.Accepted t) ↔ IsAccepted image signature hash publications t }
{
    ksi_aggtree::chains::laws::one_climb();
    ksi_calendar::laws::one_climb();
    ksi_split::laws::one_answer();
}

/// No check fails with these values exactly where the signature is accepted at the second, and the publication and the root
/// are those of its calendar chain.
pub fn proved()
    ensures { (image : List ℕ → List ℕ) (signature : Signature) (hash : List ℕ) (publications : List (ℕ × List ℕ)) (proved : declared.Proved) →
        (signature_checked image signature hash publications ≡ Ok proved) ↔ IsProved image signature hash publications proved }
{
    ksi_aggtree::chains::laws::one_climb();
    ksi_calendar::laws::one_climb();
    ksi_split::laws::one_answer();
}

/// V2 to V6 and V15 hold exactly where the chains lead from the first one's input hash to the node and are of one time, each
/// index is the one below it without its last part, each last part the chain's shape, and no raw sibling of a right link
/// begins as an imprint does.
pub fn aggregation()
    ensures { (image : List ℕ → List ℕ) (signature : Signature) (aggregation : Aggregated) → 0 < length signature.chains →
        (aggregated image signature ≡ Ok aggregation) ↔
        IsAggregated image (plain_chains signature.chains) (first_chain (plain_chains signature.chains)).input aggregation.time aggregation.node }
{
    ksi_aggtree::chains::laws::one_climb();
}

/// V2 holds exactly where each next index is the one below it without its last part, and fails at the first one that is
/// not, with the first place where both differ.
pub fn orders()
    ensures nested { (chains : List PlainChain) →
        (index_order 0 (first_chain chains) (higher_chains chains) ≡ Ok tt) ↔ AreNested chains }
    ensures differ { (chains : List PlainChain) (chain place : ℕ) (lower higher : Option ℕ) →
        (index_order 0 (first_chain chains) (higher_chains chains) ≡ Err (IndexOrder chain place lower higher)) ↔
        OutOfOrder chains chain place lower higher }
{}

/// V4 holds exactly where each chain leads to a node, and fails at the first link of all whose level passes 255.
pub fn levels()
    ensures items { (image : List ℕ → List ℕ) (chains : List PlainChain) (nodes : List Node) →
        (tops image 0 0 chains ≡ Ok nodes) ↔ HaveTops image 0 chains nodes }
    ensures over { (image : List ℕ → List ℕ) (chains : List PlainChain) (chain link level : ℕ) →
        (tops image 0 0 chains ≡ Err (Level chain link level)) ↔ PassesIn 0 chains chain link level }
{
    ksi_aggtree::chains::laws::one_climb();
    ksi_aggtree::chains::laws::levels_rise();
}

/// V4 and V5 hold exactly where the chains lead to the node, one after the other; all their links then lead there from the
/// first one's input hash. V5 fails at the first chain that does not state what the chain below it leads to.
pub fn joined()
    ensures leads { (image : List ℕ → List ℕ) (chains : List PlainChain) (node : Node) → 0 < length chains →
        (joined_chains image chains ≡ Ok node) ↔
        ChainsLead image (at_level_zero (first_chain chains).input) chains node }
    ensures broken { (image : List ℕ → List ℕ) (chains : List PlainChain) (chain : ℕ) (computed stated : List ℕ) →
        (joined_chains image chains ≡ Err (ChainBreak chain computed stated)) ↔
        BreaksAt image chains chain computed stated }
    ensures links { (image : List ℕ → List ℕ) (chains : List PlainChain) (start node : Node) →
        ChainsLead image start chains node → Climbs image start (all_links chains) node }
{
    ksi_aggtree::chains::laws::one_climb();
    ksi_aggtree::chains::laws::one_after_another();
}

/// V10 holds exactly where the sides are the way to the second, and else says how they pass one or end above one.
pub fn seconds()
    ensures second { (calendar : Calendar) (t : ℕ) →
        (second_named calendar ≡ Ok t) ↔ NamesSecond calendar.publication (sides_from_top calendar.links) t }
    ensures too_many { (calendar : Calendar) (place : ℕ) →
        (second_named calendar ≡ Err (CalendarShape (TooMany place))) ↔
        PassesLeaf calendar.publication (sides_from_top calendar.links) place }
    ensures too_few { (calendar : Calendar) (rest : ℕ) →
        (second_named calendar ≡ Err (CalendarShape (TooFew rest))) ↔
        EndsAbove calendar.publication (sides_from_top calendar.links) rest }
{
    ksi_split::laws::one_answer();
}
