ghost use Rattle.std.specs.Prelude.{◌≡◌, IfSome};
ghost use Rattle.ksi_corenode.specs.Stored.{fresh_part, bare_part};
ghost use Rattle.ksi_corenode.specs.Next.{part_held_or_sealed};

use ksi_imprint::Imprint;
use ksi_synod::Stable;

/// The stable part of a second, of fixed size: that of the vote, and the range of its sealed items in the list of all.
#[derive(Clone, Copy)]
pub(crate) struct StablePart {
    pub vote: Stable,
    pub first: usize,
    pub count: usize,
}

impl StablePart {
    /// The part before any event.
    pub fn new() -> Self
        ensures { result ≡ fresh_part }
    {
        StablePart {
            vote: Stable::new(),
            first: 0,
            count: 0,
        }
    }

    /// The part of a bare root: nothing else is stored.
    pub fn bare(root: Imprint) -> Self
        ensures { result ≡ bare_part root }
    {
        StablePart {
            vote: Stable::bare(root),
            first: 0,
            count: 0,
        }
    }

    /// The root, if nothing else is stored.
    pub fn bare_root(&self) -> Option<Imprint>
        ensures { IfSome result (λ root. self.now ≡ bare_part root) }
    {
        if self.first != 0 || self.count != 0 {
            return None;
        }
        self.vote.bare_root()
    }

    /// Whether a root is held or items are sealed.
    pub fn is_held_or_sealed(&self) -> bool
        ensures { result ≡ part_held_or_sealed self.now }
    {
        self.vote.held().is_some() || self.vote.candidate().is_some()
    }
}
