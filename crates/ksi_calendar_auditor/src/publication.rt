ghost use Rattle.std.specs.Prelude.{◌∷◌, []};

use ksi_imprint::Imprint;
use ksi_publications::Published;

/// One published root.
#[derive(Drop)]
pub(crate) struct Publication {
    pub(crate) time: u64,
    pub(crate) root: Imprint,
}

impl Published for Publication {
    ghost pairs = { λ publication. (publication.time, publication.root) ∷ [] };

    fn find(&self, time: u64) -> Option<Imprint> {
        if self.time == time {
            Some(self.root)
        } else {
            None
        }
    }
}
