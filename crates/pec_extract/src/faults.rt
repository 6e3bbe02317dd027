ghost use Rattle.std.specs.Prelude.{◌≡◌};
ghost use Rattle.pec_extract.specs.declared.faults.ExtractFault.TheVariants as faults;

use pec_outside::Failed;
use pec_types::NoMemory;

/// Why a part of an extract isn't written whole.
#[derive(Clone, Copy, Debug, PartialEq, Eq)]
pub enum ExtractFault {
    /// The disk of the provider failed.
    DiskFault,
    /// The sink failed.
    WriteFault,
    /// The entry of this number, from 0, isn't what was kept.
    Changed(u64),
    NoMemory,
}

impl From<Failed> for ExtractFault {
    ghost from_gives = { λ _ fault. fault ≡ faults.WriteFault };

    fn from(_: Failed) -> Self {
        ExtractFault::WriteFault
    }
}

impl From<NoMemory> for ExtractFault {
    ghost from_gives = { λ _ fault. fault ≡ faults.NoMemory };

    fn from(_: NoMemory) -> Self {
        ExtractFault::NoMemory
    }
}
