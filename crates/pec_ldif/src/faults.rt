ghost use Rattle.std.specs.Prelude.{◌≡◌};
ghost use Rattle.pec_ldif.specs.declared.faults.LdifFault.TheVariants as faults;

use pec_types::NoMemory;
use std::alloc::{AllocError, AllocFailed};

/// Why a text isn't LDIF of this project's profile. Places count from 0 in bytes; they are those of a line's first
/// byte, and from `NoDn` on of a record's first line.
#[derive(Clone, Copy, Debug, PartialEq, Eq)]
pub enum LdifFault {
    /// A line of none of the forms, a line that goes on with nothing, or a first line that isn't `version: 1`: where
    /// there is no line, the place is the text's end.
    Syntax(usize),
    /// What stands behind `::` isn't base64 of UTF-8.
    BadBase64(usize),
    /// A record that doesn't begin with a `dn`.
    NoDn(usize),
    /// A record that says a change, with a `changetype`.
    Change(usize),
    /// An account before any provider.
    Orphan(usize),
    NoMemory,
}

impl From<AllocError> for LdifFault {
    ghost from_gives = { λ _ fault. fault ≡ faults.NoMemory };

    fn from(_: AllocError) -> Self {
        LdifFault::NoMemory
    }
}

impl<T: Drop> From<AllocFailed<T>> for LdifFault {
    ghost from_gives = { λ _ fault. fault ≡ faults.NoMemory };

    fn from(_: AllocFailed<T>) -> Self {
        LdifFault::NoMemory
    }
}

impl From<NoMemory> for LdifFault {
    ghost from_gives = { λ _ fault. fault ≡ faults.NoMemory };

    fn from(_: NoMemory) -> Self {
        LdifFault::NoMemory
    }
}
