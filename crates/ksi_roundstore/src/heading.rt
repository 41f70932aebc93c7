// Whose file it is.
ghost use Rattle.std.specs.Prelude.{◌≡◌, ℕ, List, length, take, IsErrOf};
ghost use Rattle.ksi_disk.specs.Costs.{Affords};
ghost use Rattle.ksi_disk.specs.Reads.{WroteNothing};
ghost use Rattle.ksi_roundstore.specs.declared.refusal.OpenRefusal.TheVariants.{Failed};
ghost use Rattle.ksi_roundstore.specs.Opens.{CountsReads, HeadsAs, StaysRead};

use crate::heads::HEADER;
use crate::{OpenRefusal, header};
use ksi_disk::Disk;
use ksi_schedule::Plan;

/// Reads the header of a file of this many bytes, and looks whether it is that of aggregator `me` of a plan.
pub(crate) fn read_header<D: Disk>(
    me: u32,
    plan: &Plan,
    disk: &mut D,
    len: u64,
) -> Result<(), OpenRefusal>
    requires len { len ≡ length (D.content disk.old) }
    ensures head { HeadsAs me plan.now (D.content disk.old) result }
    ensures stays { StaysRead (D.content disk.old) (D.content disk.new) result }
    ensures nothing { WroteNothing D.images D.moment D.images_since D.meter disk.old disk.new }
    ensures counted { CountsReads (D.faults disk.old) (D.faults disk.new) result }
    ensures sure { Affords 0 0 (D.meter disk.old) → IsErrOf result Failed → ⊥ }
{
    if len < HEADER as u64 {
        return Err(OpenRefusal::NotFormatted);
    }
    let mut front = [0; HEADER];
    disk.read(0, &mut front)?;
    look_at(me, plan, &front)
}

/// Looks whether these bytes are the header of aggregator `me` of a plan.
fn look_at(me: u32, plan: &Plan, front: &[u8]) -> Result<(), OpenRefusal>
    ensures head { (file : List ℕ) → take 20 file ≡ front.now → HeadsAs me plan.now file result }
    ensures calm { (faults : ℕ) → CountsReads faults faults result }
    ensures sure { IsErrOf result Failed → ⊥ }
{
    match header(front) {
        Some(head) => {
            if head.aggregator == me && head.start == plan.start() {
                Ok(())
            } else {
                Err(OpenRefusal::Foreign(head.aggregator, head.start))
            }
        }
        None => Err(OpenRefusal::NotFormatted),
    }
}
