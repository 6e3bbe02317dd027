ghost use Rattle.std.specs.Prelude.{◌≡◌, ℕ, ◌<◌, ◌≤◌, Option, None, Some, IfOk, OnOk, OnErr};
ghost use Rattle.pec_outside.specs.Flow.{HasRisen};
ghost use Rattle.pec_outside.specs.DiskModel.{Sight, Only, Elapses};
ghost use Rattle.pec_outside.specs.Depots.{OnlyAt, Alike, depot_places};

use crate::counts::Counted;
use crate::disk::Disk;
use crate::streams::Failed;

/// Where the disks of providers are kept. A provider's number is below 16. This project's profile.
pub trait Depot: Counted {
    type D: Disk + Send;

    // Whether the depot tells its disks. Nothing is said of which disk one hands out that doesn't.
    ghost tells: { Type 0 };

    // The disks at home, by provider.
    ghost home: { Self → ℕ → Option Self.D };

    // The count of faults of each provider's disk as it last stood at home.
    ghost last: { Self → ℕ → ℕ };

    /// Hands out a provider's disk, which isn't out.
    fn disk(&mut self, provider: u32) -> Result<Self::D, Failed>
        requires { provider < depot_places }
        ensures given { tells → IfOk result (λ disk. home self.old provider ≡ Some disk) }
        ensures gone { tells → OnOk result (OnlyAt (home self.old) (home self.new) provider None) }
        ensures same { tells → OnErr result (Alike (home self.old) (home self.new)) }
        ensures count { IfOk result (λ disk. Self.D.faults disk ≡ last self.old provider) }
        ensures last { Alike (last self.old) (last self.new) }
        ensures later { Self.faults self.old ≤ Self.faults self.new }
        ensures cause { OnErr result (HasRisen (Self.faults self.old) (Self.faults self.new)) };

    /// Crashes a disk that is out: the one that comes back reads as a crash may have left the old one, and holds that
    /// durably. It takes no memory.
    fn crash(&mut self, provider: u32, old: Self::D) -> Self::D
        requires { provider < depot_places }
        ensures left { Self.D.tells → (Self.D.sight old).may_leave (Self.D.sight result).seen }
        ensures durable { Self.D.tells → Only (Self.D.sight result).seen (Self.D.sight result).may_leave }
        ensures time { Self.D.tells → Elapses (Self.D.sight old) (Self.D.sight result) }
        ensures count { Self.D.faults result ≡ Self.D.faults old }
        ensures home { tells → Alike (home self.old) (home self.new) }
        ensures last { Alike (last self.old) (last self.new) }
        ensures later { Self.faults self.old ≤ Self.faults self.new };

    /// Takes a disk back as it is. It takes no memory.
    fn keep(&mut self, provider: u32, disk: Self::D)
        requires { provider < depot_places }
        ensures kept { tells → OnlyAt (home self.old) (home self.new) provider (Some disk) }
        ensures last { OnlyAt (last self.old) (last self.new) provider (Self.D.faults disk) }
        ensures later { Self.faults self.old ≤ Self.faults self.new };
}
