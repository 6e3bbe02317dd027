ghost use Rattle.std.specs.Prelude.{◌≡◌};
ghost use Rattle.pec_frames.specs.declared.faults.FrameFault.TheVariants as faults;
ghost use Rattle.pec_frames.specs.declared.faults.FrameMade.TheVariants as made;

use pec_types::NoMemory as OutOfMemory;
use std::alloc::{AllocError, AllocFailed};

/// Why a text is no frame, in the order in which the faults are looked for.
#[derive(Clone, Copy, Debug, PartialEq, Eq)]
pub enum FrameFault {
    /// More than 50,331,648 bytes.
    TooLong,
    /// It doesn't begin with `Per: `, or no CRLF ends that line.
    NoPath,
    /// The place of the first entry that is no address, or of the 1,001st.
    BadPath(usize),
    NoMemory,
}

impl From<AllocError> for FrameFault {
    ghost from_gives = { λ _ fault. fault ≡ faults.NoMemory };

    fn from(_: AllocError) -> Self {
        FrameFault::NoMemory
    }
}

impl<T: Drop> From<AllocFailed<T>> for FrameFault {
    ghost from_gives = { λ _ fault. fault ≡ faults.NoMemory };

    fn from(_: AllocFailed<T>) -> Self {
        FrameFault::NoMemory
    }
}

/// Why there is no frame of a path and a message.
#[derive(Clone, Copy, Debug, PartialEq, Eq)]
pub enum FrameMade {
    /// It would have more than 50,331,648 bytes.
    TooLong,
    NoMemory,
}

impl From<AllocError> for FrameMade {
    ghost from_gives = { λ _ fault. fault ≡ made.NoMemory };

    fn from(_: AllocError) -> Self {
        FrameMade::NoMemory
    }
}

impl From<OutOfMemory> for FrameMade {
    ghost from_gives = { λ _ fault. fault ≡ made.NoMemory };

    fn from(_: OutOfMemory) -> Self {
        FrameMade::NoMemory
    }
}
