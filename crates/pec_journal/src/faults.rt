ghost use Rattle.std.specs.Prelude.{◌≡◌};
ghost use Rattle.pec_journal.specs.declared.faults.OpenFault.TheVariants as opening;
ghost use Rattle.pec_journal.specs.declared.faults.ReadFault.TheVariants as reading;

use pec_outside::Failed;
use std::alloc::{AllocError, AllocFailed};

/// Why no journal was made.
#[derive(Clone, Copy, Debug, PartialEq, Eq)]
pub enum CreateFault {
    /// The disk's size isn't 0.
    NotEmpty,
    DiskFault,
}

/// Why no journal was opened.
#[derive(Clone, Copy, Debug, PartialEq, Eq)]
pub enum OpenFault {
    DiskFault,
    /// The bytes are no journal file: the place of the header, the gate or the length that isn't there, or of the
    /// length of an entry that runs past the end.
    NotAJournal(u64),
    NoMemory,
}

/// Why an entry was not appended. The first that applies is answered.
#[derive(Clone, Copy, Debug, PartialEq, Eq)]
pub enum AppendFault {
    /// An earlier append answered `DiskFault`.
    Spent,
    TooLong,
    Full,
    /// The journal is spent from now on. The entry may be there after a crash, or not.
    DiskFault,
}

/// Why an entry was not read.
#[derive(Clone, Copy, Debug, PartialEq, Eq)]
pub enum ReadFault {
    DiskFault,
    NoMemory,
}

impl From<Failed> for OpenFault {
    ghost from_gives = { λ _ fault. fault ≡ opening.DiskFault };

    fn from(_: Failed) -> Self {
        OpenFault::DiskFault
    }
}

impl From<AllocError> for OpenFault {
    ghost from_gives = { λ _ fault. fault ≡ opening.NoMemory };

    fn from(_: AllocError) -> Self {
        OpenFault::NoMemory
    }
}

impl<T: Drop> From<AllocFailed<T>> for OpenFault {
    ghost from_gives = { λ _ fault. fault ≡ opening.NoMemory };

    fn from(_: AllocFailed<T>) -> Self {
        OpenFault::NoMemory
    }
}

impl From<Failed> for ReadFault {
    ghost from_gives = { λ _ fault. fault ≡ reading.DiskFault };

    fn from(_: Failed) -> Self {
        ReadFault::DiskFault
    }
}

impl From<AllocError> for ReadFault {
    ghost from_gives = { λ _ fault. fault ≡ reading.NoMemory };

    fn from(_: AllocError) -> Self {
        ReadFault::NoMemory
    }
}
