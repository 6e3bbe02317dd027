ghost use Rattle.std.specs.Prelude.{◌≡◌};
ghost use Rattle.pec_outgoing.specs.declared.faults.ComposeFault.TheVariants as faults;

use pec_types::NoMemory;
use std::alloc::AllocError;

/// Why nothing was composed of an entry.
#[derive(Clone, Copy, Debug, PartialEq, Eq)]
pub enum ComposeFault {
    /// The entry isn't what the letter or the item is composed of.
    Changed,
    NoMemory,
}

impl From<AllocError> for ComposeFault {
    ghost from_gives = { λ _ fault. fault ≡ faults.NoMemory };

    fn from(_: AllocError) -> Self {
        ComposeFault::NoMemory
    }
}

impl From<NoMemory> for ComposeFault {
    ghost from_gives = { λ _ fault. fault ≡ faults.NoMemory };

    fn from(_: NoMemory) -> Self {
        ComposeFault::NoMemory
    }
}
