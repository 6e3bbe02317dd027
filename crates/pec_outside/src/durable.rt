ghost use Rattle.std.specs.Prelude.{◌≡◌, ◌+◌, ◌≤◌, length, OnOk, OnErr};
ghost use Rattle.pec_outside.specs.Flow.{HasRisen};
ghost use Rattle.pec_outside.specs.DiskModel.{GrowsTo, Only, Torn, LeavesOnly, written};

use crate::counts::Counted;
use crate::disk::Disk;
use crate::streams::Failed;

/// A write and a sync. Where a crash leaves what a read gives, a crash at any moment of the call leaves these bytes
/// with the piece's range torn, and a crash after `Ok` all of the piece. Whatever a crash left before, no image grows
/// past the piece's end.
pub fn write_through<D: Disk>(disk: &mut D, at: u64, piece: &[u8]) -> Result<(), Failed>
    ensures written { D.tells → at ≤ length (D.sight disk.old).seen →
        OnOk result ((D.sight disk.new).seen ≡ written (D.sight disk.old).seen at piece.now) }
    ensures durable { D.tells → at ≤ length (D.sight disk.old).seen →
        OnOk result (Only (D.sight disk.new).seen (D.sight disk.new).may_leave) }
    ensures any_moment { D.tells → at ≤ length (D.sight disk.old).seen →
        Only (D.sight disk.old).seen (D.sight disk.old).may_leave →
        LeavesOnly (D.sight disk.old) (D.sight disk.new) (Torn at (length piece.now) (D.sight disk.old).seen) }
    ensures grows { D.tells → at ≤ length (D.sight disk.old).seen →
        GrowsTo (at + length piece.now) (D.sight disk.old) (D.sight disk.new) }
    ensures later { D.faults disk.old ≤ D.faults disk.new }
    ensures cause { OnErr result (HasRisen (D.faults disk.old) (D.faults disk.new)) }
{
    disk.write_at(at, piece)?;
    disk.sync()?;
    Ok(())
}
