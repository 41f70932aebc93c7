// A list of deeds that only clauses read. It takes no memory.
ghost use Rattle.std.specs.Prelude.{◌≡◌, List, [], ◌∷◌};
ghost use Rattle.std.specs.Borrow.{ftrue};
ghost use Rattle.ksi_disk.specs.Deeds.{Deed};
ghost use Rattle.ksi_disk.specs.Noted.{deed_noted};

use std::marker::{Model, PhantomData};

/// What was done, the newest first.
#[derive(Drop)]
pub struct Record {
    marker: PhantomData<u8>,
    pub ghost events: { List Deed },
}

impl Model for Record {
    ghost also_owns = { λ _. ftrue };
}

impl Record {
    pub(crate) fn new() -> Record
        ensures { result.events ≡ [] }
    {
        Record {
            marker: PhantomData,
        }
    }

    /// Notes the deed that the numbers and bytes stand for, in front of the earlier ones.
    pub(crate) fn note(&mut self, _numbers: &[u64], _bytes: &[u8])
        ensures { self.new.events ≡ deed_noted _numbers.now _bytes.now ∷ self.old.events }
    {}
}
