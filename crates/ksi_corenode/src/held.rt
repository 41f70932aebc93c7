//! The calendar of what a core holds.
ghost use Rattle.std.specs.Prelude.{◌≡◌, ◌↔◌, ℕ, ◌<◌, ◌≤◌, ◌+◌, ◌^◌, [], length, IsOk, IfOk, IfErr, OnOk, Some, None};
ghost use Rattle.ksi_calendar.specs.Covered.{first_missing, IsFirstMissing};
ghost use Rattle.ksi_corenode.specs.Settled.{IsCalendarOf};
ghost use Rattle.ksi_signature.specs.declared.answer.Answer.TheVariants.{Undecided};
ghost use Rattle.ksi_corenode.specs.Rows.{publish_answer};
ghost use Rattle.ksi_corenode.specs.CoreState.{held_by};

use crate::node::Core;
use crate::step::Step;
use ksi_calendar::Calendar;
use ksi_calendar::laws::{one_covered, one_first_missing};
use ksi_imprint::{Compress, NoMemory};
use ksi_signature::Answer;

impl<C: Compress> Core<C> {
    /// The root of the calendar from second 0 to `p`, which is at or after the start and below 2^63. The answer is
    /// Published with it, or Undecided with the first second from the start to `p` that nothing is held for.
    pub fn publish(&self, p: u64) -> Result<Step, NoMemory>
        requires from { self.now.start ≤ p }
        requires below { p < 2 ^ 63 }
        ensures answer { IfOk result (λ step.
            step.answer ≡ publish_answer C.image (held_by self.now) self.now.start p) }
        ensures undecided { IfOk result (λ step. (s : ℕ) →
            (step.answer ≡ Undecided s) ↔ IsFirstMissing (held_by self.now) self.now.start p s) }
        ensures fact { IfOk result (λ step. step.fact ≡ None) }
        ensures sends { IfOk result (λ step. step.sends ≡ []) }
        ensures memory { IsOk result }
    {
        one_first_missing();
        let answer = self.published(p);
        Ok(Step::without_sends(self.alloc(), answer))
    }

    fn published(&self, p: u64) -> Answer
        requires from { self.now.start ≤ p }
        requires below { p < 2 ^ 63 }
        ensures { result ≡ publish_answer C.image (held_by self.now) self.now.start p }
    {
        one_covered();
        match self.covering(p) {
            Ok(calendar) => match calendar.root_to(p) {
                Some(root) => Answer::Published(root),
                // the calendar covers all seconds to p
                None => unreachable!(),
            },
            Err(missing) => Answer::Undecided(missing),
        }
    }

    /// The calendar of what is held, where all is held from the start to the last second; else the first second of these
    /// that nothing is held for.
    pub(crate) fn covering(&self, last: u64) -> Result<&Calendar<C>, u64>
        requires from { self.now.start ≤ last }
        requires below { last < 2 ^ 63 }
        ensures kept { IfOk result (λ calendar. IsCalendarOf (held_by self.now) self.now.start calendar.now) }
        ensures covered { IfOk result (λ calendar. last < calendar.now.start + length calendar.now.roots) }
        ensures all { OnOk result (first_missing (held_by self.now) self.now.start last ≡ None) }
        ensures missing { IfErr result (λ missing. first_missing (held_by self.now) self.now.start last ≡ Some missing) }
    {
        one_first_missing();
        let calendar = self.calendar();
        let next = calendar.start() + calendar.count();
        if next <= last {
            return Err(next);
        }
        match calendar.calendar() {
            Some(calendar) => Ok(calendar),
            None => unreachable!(),
        }
    }
}
