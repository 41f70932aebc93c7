//! What holds of the lines, for the layers above to cite. This function does nothing.
ghost use Rattle.std.specs.Prelude.{◌≡◌, ℕ, Ok};
ghost use Rattle.ksi_schedule.specs.Plans.{PlanState, IsPlan};
ghost use Rattle.ksi_schedule.specs.Printed.{line_of};
ghost use Rattle.ksi_corenode.specs.declared.event.CoreEvent.{CoreEvent};
ghost use Rattle.ksi_wire.specs.declared.event.AggregatorLine.{AggregatorLine};
ghost use Rattle.ksi_wire.specs.Lines.{core_words};
ghost use Rattle.ksi_wire.specs.RoundLines.{asked_words};
ghost use Rattle.ksi_wire.specs.Asked.{core_event_of};
ghost use Rattle.ksi_wire.specs.AskedRounds.{aggregator_line_of};
ghost use Rattle.ksi_wire.specs.declared.questions.CoreLine.{CoreLine};
ghost use Rattle.ksi_wire.specs.Questions.{core_line_of, core_line_words};
ghost use Rattle.ksi_wire.specs.Taken.{ComesToCore, ComesToAggregator, IsAskedOfCore};

use ksi_signature::laws::signature_is_read;

/// The printed line of each event or question that may come to a node of a plan is taken as that.
#[tactic(auto, using(crate::proofs::Taken::core_line_taken, crate::proofs::Taken::core_asked_taken, crate::proofs::Taken::aggregator_line_taken))]
pub fn printed_lines_are_taken()
    ensures core { (plan : PlanState) (me : ℕ) (event : CoreEvent) → IsPlan plan → ComesToCore plan me event → core_event_of plan me (line_of (core_words event)) ≡ Ok event }
    ensures asked { (plan : PlanState) (me : ℕ) (asked : CoreLine) → IsPlan plan → IsAskedOfCore plan me asked → core_line_of plan me (line_of (core_line_words asked)) ≡ Ok asked }
    ensures aggregator { (plan : PlanState) (me : ℕ) (asked : AggregatorLine) → IsPlan plan → ComesToAggregator plan me asked → aggregator_line_of plan me (line_of (asked_words asked)) ≡ Ok asked }
{
    signature_is_read();
}
