ghost use Rattle.std.specs.Prelude.{◌≡◌, ◌≢◌, ◌↔◌, ℕ, List, None, Some};
ghost use Rattle.std.specs.List.{AllByRecursion};
ghost use Rattle.ksi_publications.specs.Finding.{find};

use ksi_imprint::Imprint;
use std::marker::Model;

/// Published times and hashes, in the order of their file. A contract sees the list of pairs.
#[derive(Drop)]
pub struct Publications {
    pairs: Vec<(u64, Imprint)>,
}

impl Model for Publications {
    ghost Value = { List (ℕ × List ℕ) };

    ghost view = { λ publications. publications.pairs.items };
}

impl Publications {
    /// Published times and hashes in this order, which are not copied.
    pub fn from_vec(pairs: Vec<(u64, Imprint)>) -> Self
        ensures { result ≡ pairs.items }
    {
        Publications { pairs }
    }

    /// The times and hashes in order, which are not copied.
    pub fn into_vec(self) -> Vec<(u64, Imprint)>
        ensures { result.items ≡ self }
    {
        let Publications { pairs } = self;
        pairs
    }

    /// The times and hashes in order.
    pub fn pairs(&self) -> &[(u64, Imprint)]
        ensures { result.now ≡ self.now }
    {
        self.pairs.as_slice()
    }

    /// The hash that was published for a time, of several the first; none where no pair has the time.
    pub fn find(&self, time: u64) -> Option<Imprint>
        ensures first { result ≡ find time self.now }
        ensures none { (result ≡ None) ↔ AllByRecursion (λ pair. pair.0 ≢ time) self.now }
    {
        first_of(self.pairs.as_slice(), time)
    }
}

fn first_of(pairs: &[(u64, Imprint)], time: u64) -> Option<Imprint>
    ensures { result ≡ find time pairs.now }
{
    for pair in pairs {
        if pair.0 == time {
            return Some(pair.1);
        }
    }
    None
}
