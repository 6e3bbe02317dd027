ghost use Rattle.std.specs.Prelude.{◌≡◌};
ghost use Rattle.pec_bodies.specs.declared.faults.BodyFault.TheVariants as faults;

use pec_heads::HeadFault;
use std::alloc::{AllocError, AllocFailed};

/// Why a body has no parts.
#[derive(Clone, Copy, Debug, PartialEq, Eq)]
pub enum BodyFault {
    /// The head says no multipart, or has no boundary of 1 to 70 bytes.
    NoBoundary,
    /// No line is a delimiter.
    NoOpening,
    /// Nothing behind the first delimiter is a closing delimiter.
    NoClosing,
    /// The number of the first part that begins with no head, from 0, and why; places in it count from the part's first
    /// byte.
    PartHead(usize, HeadFault),
    NoMemory,
}

impl From<AllocError> for BodyFault {
    ghost from_gives = { λ _ fault. fault ≡ faults.NoMemory };

    fn from(_: AllocError) -> Self {
        BodyFault::NoMemory
    }
}

impl<T: Drop> From<AllocFailed<T>> for BodyFault {
    ghost from_gives = { λ _ fault. fault ≡ faults.NoMemory };

    fn from(_: AllocFailed<T>) -> Self {
        BodyFault::NoMemory
    }
}
