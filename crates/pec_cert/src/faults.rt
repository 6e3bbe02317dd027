ghost use Rattle.std.specs.Prelude.{◌≡◌};
ghost use Rattle.pec_cert.specs.declared.faults.CertFault.TheVariants as faults;

use pec_types::NoMemory as OutOfMemory;
use std::alloc::{AllocError, AllocFailed};

/// Why a text is no certification text. Places count bytes of the text from 0.
#[derive(Clone, Copy, Debug, PartialEq, Eq)]
pub enum CertFault {
    /// The first byte with which no certification text goes on, or the text's end where there is no such byte.
    Syntax(usize),
    /// The first byte of the zone, day or time that is out of range, and of the day where the moment alone is.
    BadDate(usize),
    /// The first byte of a value that is no address in lower case.
    BadAddress(usize),
    NoMemory,
}

impl From<AllocError> for CertFault {
    ghost from_gives = { λ _ fault. fault ≡ faults.NoMemory };

    fn from(_: AllocError) -> Self {
        CertFault::NoMemory
    }
}

impl<T: Drop> From<AllocFailed<T>> for CertFault {
    ghost from_gives = { λ _ fault. fault ≡ faults.NoMemory };

    fn from(_: AllocFailed<T>) -> Self {
        CertFault::NoMemory
    }
}

impl From<OutOfMemory> for CertFault {
    ghost from_gives = { λ _ fault. fault ≡ faults.NoMemory };

    fn from(_: OutOfMemory) -> Self {
        CertFault::NoMemory
    }
}
