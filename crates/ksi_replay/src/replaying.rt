ghost use Rattle.std.specs.Prelude.{◌≡◌, IfOk};

use ksi_imprint::{Compress, NoMemory};
use ksi_schedule::Schedule;
use ksi_world::World;
use std::alloc::Global;

/// The world after the events of a schedule, which are not copied.
///
/// # Errors
/// `NoMemory`.
pub fn replay<C: Compress>(alloc: Global, schedule: Schedule) -> Result<World<C>, NoMemory>
    ensures { IfOk result (λ world. world ≡ schedule) }
{
    World::after(alloc, schedule)
}
