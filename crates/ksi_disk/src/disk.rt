ghost use Rattle.std.specs.Prelude.{◌≡◌, ℕ, ◌+◌, ◌≤◌, ◌<◌, ◌^◌, List, length, take, drop, Option, IfOk, IsOk, OnOk};
ghost use Rattle.ksi_disk.specs.Images.{laid_over, AddsNone, Elapses, Follows, Only, Torn};
ghost use Rattle.ksi_disk.specs.Costs.{Affords, DiskCounts, Meter, Spends};

/// A call of a disk failed, and the count of faults rose.
#[derive(Clone, Copy, Debug, PartialEq, Eq)]
pub struct DiskFailed;

/// Bytes that outlast a crash, as far as they were synced.
///
/// Between two syncs each written range may be left with any bytes in it, and the part past the old end may be gone; a write
/// that fails counts as written. The count of faults never falls. It stops at 2^64 - 1, where it counts as risen by any
/// number.
pub trait Disk {
    /// What a read gives.
    ghost content: { Self → List ℕ };

    /// What a crash now may leave.
    ghost images: { Self → List ℕ → Type 0 };

    /// The moment, as a number that does not fall.
    ghost moment: { Self → ℕ };

    /// What a crash at a moment since that one may have left, within a call or between two.
    ghost images_since: { Self → ℕ → List ℕ → Type 0 };

    /// How often a call failed.
    ghost faults: { Self → ℕ };

    /// How many bytes and how many writes and syncs the disk still takes, where it tells that.
    ghost meter: { Self → Option Meter };

    /// How many bytes there are.
    ///
    /// # Errors
    ///
    /// `DiskFailed`, and the count of faults rises.
    fn len(&mut self) -> Result<u64, DiskFailed>
        ensures told { IfOk result (λ count. count ≡ length (content self.old)) }
        ensures stays { OnOk result (content self.new ≡ content self.old) }
        ensures no_image { AddsNone (images self.old) (images self.new) }
        ensures time { Elapses (moment self.old) (moment self.new) (images_since self.old) (images_since self.new) (images self.new) }
        ensures counted { DiskCounts (faults self.old) (faults self.new) result }
        ensures unspent { meter self.new ≡ meter self.old }
        ensures sure { Affords 0 0 (meter self.old) → IsOk result };

    /// Fills the buffer with the bytes from a place on.
    ///
    /// # Errors
    ///
    /// `DiskFailed`, and the count of faults rises. What the buffer then has is unknown.
    fn read(&mut self, at: u64, buffer: &mut [u8]) -> Result<(), DiskFailed>
        requires { at + length buffer.old ≤ length (content self.old) }
        ensures filled { OnOk result (buffer.new ≡ take (length buffer.old) (drop at (content self.old))) }
        ensures stays { OnOk result (content self.new ≡ content self.old) }
        ensures no_image { AddsNone (images self.old) (images self.new) }
        ensures time { Elapses (moment self.old) (moment self.new) (images_since self.old) (images_since self.new) (images self.new) }
        ensures counted { DiskCounts (faults self.old) (faults self.new) result }
        ensures unspent { meter self.new ≡ meter self.old }
        ensures sure { Affords 0 0 (meter self.old) → IsOk result };

    /// Writes over what is there, and past the end. Until a sync succeeds, a crash may leave any bytes in that range.
    ///
    /// # Errors
    ///
    /// `DiskFailed`, and the count of faults rises. Some of the bytes may have been written.
    fn write_at(&mut self, at: u64, bytes: &[u8]) -> Result<(), DiskFailed>
        requires { at ≤ length (content self.old) }
        ensures written { OnOk result (content self.new ≡ laid_over (content self.old) at bytes.now) }
        ensures within { OnOk result (at + length bytes.now < 2 ^ 64) }
        ensures torn { Follows (Torn at (length bytes.now)) (images self.old) (images self.new) }
        ensures time { Elapses (moment self.old) (moment self.new) (images_since self.old) (images_since self.new) (images self.new) }
        ensures counted { DiskCounts (faults self.old) (faults self.new) result }
        ensures spent { Spends (length bytes.now) 1 (meter self.old) (meter self.new) }
        ensures sure { Affords (length bytes.now) 1 (meter self.old) → IsOk result };

    /// After it a crash leaves what a read gives.
    ///
    /// # Errors
    ///
    /// `DiskFailed`, and the count of faults rises. A crash may still leave what it might have left before.
    fn sync(&mut self) -> Result<(), DiskFailed>
        ensures durable { OnOk result (Only (content self.old) (images self.new)) }
        ensures stays { OnOk result (content self.new ≡ content self.old) }
        ensures no_image { AddsNone (images self.old) (images self.new) }
        ensures time { Elapses (moment self.old) (moment self.new) (images_since self.old) (images_since self.new) (images self.new) }
        ensures counted { DiskCounts (faults self.old) (faults self.new) result }
        ensures spent { Spends 0 1 (meter self.old) (meter self.new) }
        ensures sure { Affords 0 1 (meter self.old) → IsOk result };

    /// What a read gives is one of the images.
    ghost content_is_image: { (disk : Self) → images disk (content disk) };

    /// This moment is one of those since an earlier one.
    ghost counts_now: { (disk : Self) (since : ℕ) (image : List ℕ) → since ≤ moment disk → images disk image → images_since disk since image };

    /// Since this moment there was no other.
    ghost only_now: { (disk : Self) (image : List ℕ) → images_since disk (moment disk) image → images disk image };
}
