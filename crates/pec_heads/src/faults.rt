ghost use Rattle.std.specs.Prelude.{◌≡◌};
ghost use Rattle.pec_heads.specs.declared.faults.HeadFault.TheVariants as faults;
ghost use Rattle.pec_heads.specs.declared.faults.ListFault.TheVariants as wrong;

use pec_types::AddressFault;
use std::alloc::{AllocError, AllocFailed};

/// Why a message has no head. Places are byte places in the message, from 0.
#[derive(Clone, Copy, Debug, PartialEq, Eq)]
pub enum HeadFault {
    /// The start of a line that isn't empty, continues no field and has no colon.
    NoColon(usize),
    /// The start of a line with no field name before its colon, or the start of the first line where it begins with a
    /// blank.
    BadName(usize),
    /// A control byte other than tab.
    BareControl(usize),
    /// The lines end without an empty one.
    NoEnd,
    /// The start of a line of more than 998 bytes, its line end not counted.
    LineTooLong(usize),
    NoMemory,
}

impl From<AllocError> for HeadFault {
    ghost from_gives = { λ _ fault. fault ≡ faults.NoMemory };

    fn from(_: AllocError) -> Self {
        HeadFault::NoMemory
    }
}

/// Why the values of a name are no list of addresses. Places are byte places in the values joined by commas, from 0.
#[derive(Clone, Copy, Debug, PartialEq, Eq)]
pub enum ListFault {
    /// The start of an entry with a `<` or a `"` that isn't a phrase and an address in `<` and `>`.
    Syntax(usize),
    /// The first byte of an entry that isn't blank, where the entry is no address, and why; places in it count from
    /// that byte.
    BadAddress(usize, AddressFault),
    /// There is no entry.
    Empty,
    NoMemory,
}

impl From<AllocError> for ListFault {
    ghost from_gives = { λ _ fault. fault ≡ wrong.NoMemory };

    fn from(_: AllocError) -> Self {
        ListFault::NoMemory
    }
}

impl<T: Drop> From<AllocFailed<T>> for ListFault {
    ghost from_gives = { λ _ fault. fault ≡ wrong.NoMemory };

    fn from(_: AllocFailed<T>) -> Self {
        ListFault::NoMemory
    }
}
