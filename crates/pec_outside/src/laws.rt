ghost use Rattle.std.specs.Prelude.{◌≡◌, ℕ, ◌≤◌, List, length};
ghost use Rattle.std.specs.List.{count_by};
ghost use Rattle.pec_outside.specs.DiskModel.{Only};
ghost use Rattle.pec_outside.specs.MemoryDisk.{Step, LeftSince, after_crash, front_of, held_of, is_call};

use crate::disk::Disk;

/// The laws of every disk, for proofs that speak of two values over it.
pub fn a_disk_is_so<D: Disk>()
    // This moment is one of those since an earlier one, and since this moment there is no other.
    ensures counts { D.tells → (disk : D) (t : ℕ) (image : List ℕ) → t ≤ (D.sight disk).moment →
        (D.sight disk).may_leave image → (D.sight disk).left_since t image }
    ensures now { D.tells → (disk : D) (image : List ℕ) → (D.sight disk).left_since (D.sight disk).moment image →
        (D.sight disk).may_leave image }
    // A disk as it reads is one of its images.
    ensures reads { D.tells → (disk : D) → (D.sight disk).may_leave (D.sight disk).seen }
{}

/// What `MemDisk::image` answers is one of the images that a crash of the disk may leave, or may have left since any
/// moment up to that of the call, and it holds that durably. The front of a log up to the call of a number has that
/// many calls.
pub fn an_image_is_one_that_a_crash_leaves()
    ensures left { (log : List Step) (calls kept since : ℕ) → since ≤ length (front_of calls log) →
        LeftSince log since (held_of (after_crash (front_of calls log) kept)).bytes }
    ensures durable { (log : List Step) (calls kept : ℕ) →
        Only (held_of (after_crash (front_of calls log) kept)).bytes (held_of (after_crash (front_of calls log) kept)).images }
    ensures count { (log : List Step) (calls : ℕ) → calls ≤ count_by is_call log →
        count_by is_call (front_of calls log) ≡ calls }
{}
