//! Counts of the entries so far.
ghost use Rattle.std.specs.Prelude.{◌≡◌, []};
ghost use Rattle.ksi_records.specs.Sums.{sum_of, sum_with, counts_in};
ghost use Rattle.ksi_records.specs.Verdicts.{is_unsaid, is_sign};

use crate::blocks::Place;
use crate::head::Head;
use crate::verdict::Counts;
use crate::version::Version;

/// How many entries there were, none of the counts beyond 2^64 - 1.
#[derive(Clone, Copy)]
pub(crate) struct Sum {
    /// The place of the next entry.
    pub(crate) place: Place,
    pub(crate) unsaid: u64,
    pub(crate) signatures: u64,
}

impl Sum {
    /// Of no entries.
    pub(crate) fn new() -> Sum
        ensures { result ≡ sum_of [] }
    {
        Sum {
            place: Place { entry: 0, line: 1 },
            unsaid: 0,
            signatures: 0,
        }
    }

    /// With one more entry.
    pub(crate) fn with(self, head: &Head, block: &[u8]) -> Sum
        ensures { result ≡ sum_with self head.now block.now }
    {
        let signed = is_sign(head) && block.starts_with(b"signature ");
        Sum {
            place: self.place.behind(block),
            unsaid: self.unsaid.saturating_add(u64::from(is_unsaid(head))),
            signatures: self.signatures.saturating_add(u64::from(signed)),
        }
    }

    pub(crate) fn counts(self, version: Version, steps: usize) -> Counts
        ensures { result ≡ counts_in version steps self }
    {
        Counts {
            version,
            steps,
            unsaid: self.unsaid,
            signatures: self.signatures,
        }
    }
}

fn is_unsaid(head: &Head) -> bool
    ensures { result ≡ is_unsaid head.now }
{
    matches!(head, Head::Unsaid(_))
}

fn is_sign(head: &Head) -> bool
    ensures { result ≡ is_sign head.now }
{
    matches!(head, Head::Sign(_))
}
