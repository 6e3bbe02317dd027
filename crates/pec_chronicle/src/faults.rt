ghost use Rattle.std.specs.Prelude.{◌≡◌};
ghost use Rattle.pec_chronicle.specs.Faults.{kept_as, opened_as, read_as};
ghost use Rattle.pec_chronicle.specs.declared.faults.OpenFault.TheVariants as opening;

use std::alloc::{AllocError, AllocFailed};

/// Why no entries were made.
#[derive(Clone, Copy, Debug, PartialEq, Eq)]
pub enum CreateFault {
    /// The disk's size isn't 0.
    NotEmpty,
    DiskFault,
    NoMemory,
}

/// Why no entries were opened.
#[derive(Clone, Copy, Debug, PartialEq, Eq)]
pub enum OpenFault {
    DiskFault,
    /// The bytes are no journal: the place of the header, the gate or the length that isn't there, or of the length of
    /// an entry that runs past the end.
    NotAJournal(u64),
    /// The number, from 0, of the first entry whose bytes are none.
    BadEntry(u64),
    NoMemory,
}

/// Why an entry was not appended. The first that applies is answered.
#[derive(Clone, Copy, Debug, PartialEq, Eq)]
pub enum AppendFault {
    /// The journal would end behind 1,099,511,627,776 bytes.
    JournalFull,
    /// It is down from now on, and the entry may be there after a crash, or not.
    DiskFault,
}

/// Why an entry was not read.
#[derive(Clone, Copy, Debug, PartialEq, Eq)]
pub enum ReadFault {
    /// Nothing is appended or read any more.
    DiskFault,
    /// The bytes at the place are no entry, which over a disk that tells what it holds never comes. Nothing is appended
    /// or read any more.
    Changed,
    NoMemory,
}

impl From<pec_journal::OpenFault> for OpenFault {
    ghost from_gives = { λ was fault. fault ≡ opened_as was };

    fn from(fault: pec_journal::OpenFault) -> Self {
        match fault {
            pec_journal::OpenFault::DiskFault => OpenFault::DiskFault,
            pec_journal::OpenFault::NotAJournal(place) => OpenFault::NotAJournal(place),
            pec_journal::OpenFault::NoMemory => OpenFault::NoMemory,
        }
    }
}

impl From<pec_journal::ReadFault> for OpenFault {
    ghost from_gives = { λ was fault. fault ≡ read_as was };

    fn from(fault: pec_journal::ReadFault) -> Self {
        match fault {
            pec_journal::ReadFault::DiskFault => OpenFault::DiskFault,
            pec_journal::ReadFault::NoMemory => OpenFault::NoMemory,
        }
    }
}

impl From<pec_journal::ReadFault> for ReadFault {
    ghost from_gives = { λ was fault. fault ≡ kept_as was };

    fn from(fault: pec_journal::ReadFault) -> Self {
        match fault {
            pec_journal::ReadFault::DiskFault => ReadFault::DiskFault,
            pec_journal::ReadFault::NoMemory => ReadFault::NoMemory,
        }
    }
}

impl From<AllocError> for OpenFault {
    ghost from_gives = { λ _ fault. fault ≡ opening.NoMemory };

    fn from(_: AllocError) -> Self {
        OpenFault::NoMemory
    }
}

impl<T: Drop> From<AllocFailed<T>> for OpenFault {
    ghost from_gives = { λ _ fault. fault ≡ opening.NoMemory };

    fn from(_: AllocFailed<T>) -> Self {
        OpenFault::NoMemory
    }
}
