ghost use Rattle.std.specs.Prelude.{◌≡◌, ℕ, List};
ghost use Rattle.ksi_publications.specs.Finding.{find};
ghost use Rattle.ksi_publications.specs.Lent.{lent_pairs};

use crate::publications::Publications;
use crate::publications_view::PublicationsView;
use ksi_imprint::Imprint;

/// Published times and hashes as checks see them, whoever owns them.
pub trait Published {
    /// The times and hashes in order.
    ghost pairs: { Self → List (ℕ × List ℕ) };

    /// The hash that was published for a time, of several the first; none where no pair has the time.
    fn find(&self, time: u64) -> Option<Imprint>
        ensures { result ≡ find time (pairs self.now) };
}

impl Published for Publications {
    ghost pairs = { λ publications. publications };

    fn find(&self, time: u64) -> Option<Imprint> {
        self.find(time)
    }
}

impl<'a> Published for PublicationsView<'a> {
    ghost pairs = { lent_pairs };

    fn find(&self, time: u64) -> Option<Imprint> {
        self.find(time)
    }
}
