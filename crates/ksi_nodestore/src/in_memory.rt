// Stores on a disk in memory.
ghost use Rattle.std.specs.Prelude.{◌≡◌, ℕ, List, OnErr, OnOk};
ghost use Rattle.ksi_synod.specs.CorePlans.{CorePlanState};
ghost use Rattle.ksi_corenode.specs.declared.fact.Fact.{Fact};
ghost use Rattle.ksi_disk.specs.Deeds.{content_of, with_room, IsImage};
ghost use Rattle.ksi_nodestore.specs.StoreState.{on_disk, IsStoreOf};

use crate::NodeStore;
use ksi_disk::MemDisk;
use ksi_imprint::{Compress, NoMemory};

impl<C: Compress> NodeStore<C, MemDisk> {
    /// From now on the disk takes this many bytes, and this many writes and syncs.
    ///
    /// # Errors
    /// `NoMemory`: nothing has changed.
    pub fn make_room(&mut self, room: usize, turns: usize) -> Result<(), NoMemory>
        ensures made { OnOk result (self.new ≡ on_disk self.old (with_room self.old.log.disk room turns)) }
        ensures unchanged { OnErr result (self.new ≡ self.old) }
        ensures stored { (me : ℕ) (plan : CorePlanState) (facts : List Fact) → IsStoreOf C.image content_of (λ disk. IsImage disk.start disk.deeds) me plan facts self.old →
            IsStoreOf C.image content_of (λ disk. IsImage disk.start disk.deeds) me plan facts self.new }
    {
        self.log.disk.make_room(room, turns)
    }
}
