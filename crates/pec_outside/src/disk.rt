ghost use Rattle.std.specs.Prelude.{◌≡◌, ℕ, ◌-◌, ◌≤◌, min, List, length, take, drop, IfOk, OnOk, OnErr};
ghost use Rattle.pec_outside.specs.Flow.{HasRisen};
ghost use Rattle.pec_outside.specs.DiskModel.{Sight, Only, Rests, Tears, written};

use crate::counts::Counted;
use crate::streams::Failed;

/// Bytes by place that outlive the program. This project's profile.
///
/// Until a sync is answered, a crash may leave any bytes in each range that was written, by a failed write too, and
/// past the old end. All other bytes stay. After a sync that is answered a crash leaves what a read gives.
pub trait Disk: Counted {
    // Whether the disk tells what it holds. Nothing is said of the content of one that doesn't.
    ghost tells: { Type 0 };

    // What a read gives, and what a crash now or since an earlier moment may have left.
    ghost sight: { Self → Sight };

    /// How many bytes the disk holds.
    fn size(&mut self) -> Result<u64, Failed>
        ensures size { tells → IfOk result (λ n. n ≡ length (sight self.old).seen) }
        ensures rests { tells → Rests (sight self.old) (sight self.new) }
        ensures later { Self.faults self.old ≤ Self.faults self.new }
        ensures cause { OnErr result (HasRisen (Self.faults self.old) (Self.faults self.new)) };

    /// Puts the bytes from place `at` on at the front of `room`, as many as it has room for and the disk has, and
    /// answers how many. What stands behind these in `room`, and all of it after `Failed`, is open.
    fn read_at(&mut self, at: u64, room: &mut [u8]) -> Result<usize, Failed>
        ensures within { IfOk result (λ n. n ≤ length room.old) }
        ensures count { tells → IfOk result (λ n. n ≡ min (length room.old) (length (sight self.old).seen - at)) }
        ensures bytes { tells → IfOk result (λ n. take n room.new ≡ take n (drop at (sight self.old).seen)) }
        ensures rests { tells → Rests (sight self.old) (sight self.new) }
        ensures later { Self.faults self.old ≤ Self.faults self.new }
        ensures cause { OnErr result (HasRisen (Self.faults self.old) (Self.faults self.new)) };

    /// Writes the piece over what stands at place `at`, and past the end. What it does is said where `at` is at most
    /// the size. After `Failed` the range may hold any bytes.
    fn write_at(&mut self, at: u64, piece: &[u8]) -> Result<(), Failed>
        ensures written { tells → at ≤ length (sight self.old).seen →
            OnOk result ((sight self.new).seen ≡ written (sight self.old).seen at piece.now) }
        ensures tears { tells → at ≤ length (sight self.old).seen →
            Tears at (length piece.now) (sight self.old) (sight self.new) }
        ensures later { Self.faults self.old ≤ Self.faults self.new }
        ensures cause { OnErr result (HasRisen (Self.faults self.old) (Self.faults self.new)) };

    /// Makes durable what was written. After `Failed` that is open.
    fn sync(&mut self) -> Result<(), Failed>
        ensures durable { tells → OnOk result (Only (sight self.old).seen (sight self.new).may_leave) }
        ensures rests { tells → Rests (sight self.old) (sight self.new) }
        ensures later { Self.faults self.old ≤ Self.faults self.new }
        ensures cause { OnErr result (HasRisen (Self.faults self.old) (Self.faults self.new)) };

    // This moment is one of those since an earlier one.
    ghost counts_now: { tells → (disk : Self) (t : ℕ) (image : List ℕ) → t ≤ (sight disk).moment →
        (sight disk).may_leave image → (sight disk).left_since t image };

    // Since this moment there is no other.
    ghost only_now: { tells → (disk : Self) (image : List ℕ) → (sight disk).left_since (sight disk).moment image →
        (sight disk).may_leave image };

    // A disk as it reads is one of its images.
    ghost reads_so: { tells → (disk : Self) → (sight disk).may_leave (sight disk).seen };
}
