//! The chains of the calendar of what a core holds.
ghost use Rattle.std.specs.Prelude.{◌≡◌, ◌↔◌, ◌<◌, ◌≤◌, ◌^◌, None, Some, IfOk, IsSome};
ghost use Rattle.ksi_calendar.specs.Covered.{IsCovered, first_missing};
ghost use Rattle.ksi_corenode.specs.Chains.{chain_over, held_chain};
ghost use Rattle.ksi_corenode.specs.CoreState.{held_by};

use crate::node::Core;
use ksi_calendar::laws::{one_covered, one_first_missing};
use ksi_imprint::{Compress, Imprint, NoMemory};
use ksi_signature::CalendarLinks;

/// The links from a second up to a root of the calendar, the lowest first, and that root.
#[derive(Drop)]
pub struct HeldChain {
    pub links: CalendarLinks,
    pub root: Imprint,
}

impl<C: Compress> Core<C> {
    /// The chain of second `t` in the calendar from second 0 to `p`, which is at or after the start and below 2^63. None
    /// where `t` is after `p`, or nothing is held for a second from the start to `p`.
    ///
    /// # Errors
    /// `NoMemory`: all is as it was.
    #[tactic(auto, unfolding(crate::specs::Chains::held_chain))]
    pub fn chain(&self, t: u64, p: u64) -> Result<Option<HeldChain>, NoMemory>
        requires from { self.now.start ≤ p }
        requires below { p < 2 ^ 63 }
        ensures chain { IfOk result (λ found. found ≡ held_chain C.image (held_by self.now) self.now.start t p) }
        ensures some { IfOk result (λ found. IsSome found ↔ ((t ≤ p) × IsCovered (held_by self.now) self.now.start p)) }
    {
        one_first_missing();
        if t <= p {
            self.chain_within(t, p)
        } else {
            Ok(None)
        }
    }

    fn chain_within(&self, t: u64, p: u64) -> Result<Option<HeldChain>, NoMemory>
        requires within { t ≤ p }
        requires from { self.now.start ≤ p }
        requires below { p < 2 ^ 63 }
        ensures { IfOk result (λ found. found ≡ chain_over C.image (held_by self.now) self.now.start t p (first_missing (held_by self.now) self.now.start p)) }
    {
        one_covered();
        match self.covering(p) {
            Err(_) => Ok(None),
            Ok(calendar) => match calendar.root_to(p) {
                Some(root) => {
                    let links = calendar.chain_to(t, p)?;
                    Ok(Some(HeldChain {
                        links: CalendarLinks::from_vec(links.into_vec()),
                        root,
                    }))
                }
                // the calendar covers all seconds to p
                None => unreachable!(),
            },
        }
    }
}
