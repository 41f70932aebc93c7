// Restarting a core on its disk.
ghost use Rattle.std.specs.Prelude.{◌≡◌, ℕ, List};
ghost use Rattle.ksi_synod.specs.CorePlans.{CorePlanState};
ghost use Rattle.ksi_corenode.specs.declared.fact.Fact.{Fact};
ghost use Rattle.ksi_nodestore.specs.Crashes.{IsRestarted};
ghost use Rattle.ksi_nodestore.specs.StoreState.{IsStoreOf};

use crate::NodeStore;
use ksi_disk::Disk;
use ksi_imprint::Compress;

impl<C: Compress, D: Disk> NodeStore<C, D> {
    /// Restarts the core: it forgets every ballot in hand and all open items. The file is not looked at. A store that is opened
    /// of it has the core in the same state ([`crashes_are_restarts`](crate::laws::crashes_are_restarts), clause `idle`).
    pub fn restart(&mut self)
        ensures restarted { IsRestarted self.old.core self.new.core }
        ensures log { self.new.log ≡ self.old.log }
        ensures records { self.new.records ≡ self.old.records }
        ensures stored { (me : ℕ) (plan : CorePlanState) (facts : List Fact) → IsStoreOf C.image D.content D.images me plan facts self.old → IsStoreOf C.image D.content D.images me plan facts self.new }
    {
        self.core.restart();
    }
}
