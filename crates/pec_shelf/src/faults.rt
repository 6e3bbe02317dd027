ghost use Rattle.std.specs.Prelude.{◌≡◌};
ghost use Rattle.pec_shelf.specs.declared.faults.DraftFault.TheVariants as faults;

use pec_types::NoMemory;
use std::alloc::AllocError;

/// Why an entry of a journal was not drafted.
#[derive(Clone, Copy, Debug, PartialEq, Eq)]
pub enum DraftFault {
    /// The entry can't follow: its own condition isn't met in the half as it is, or its moment is before the greatest.
    NotAStep,
    NoMemory,
}

impl From<AllocError> for DraftFault {
    ghost from_gives = { λ _ fault. fault ≡ faults.NoMemory };

    fn from(_: AllocError) -> Self {
        DraftFault::NoMemory
    }
}

impl From<NoMemory> for DraftFault {
    ghost from_gives = { λ _ fault. fault ≡ faults.NoMemory };

    fn from(_: NoMemory) -> Self {
        DraftFault::NoMemory
    }
}
