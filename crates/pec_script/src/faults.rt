ghost use Rattle.std.specs.Prelude.{◌≡◌};
ghost use Rattle.pec_script.specs.declared.faults.LineFault.TheVariants as faults;

use pec_types::NoMemory as OutOfMemory;
use std::alloc::AllocError;

/// Why a line says no command, in the order in which the faults are looked for. Arguments are counted from 1.
#[derive(Clone, Copy, Debug, PartialEq, Eq)]
pub enum LineFault {
    /// The first word is no command's.
    UnknownWord,
    /// The command has another number of arguments.
    Arity,
    /// The argument isn't a number in decimal, with no sign and no leading zero, below its bound.
    BadNumber(u8),
    /// The argument isn't an address, or a path of one to 1,000 addresses.
    BadAddress(u8),
    /// The argument isn't in standard padded base64.
    BadBase64(u8),
    /// The argument names no provider of the directory.
    UnknownProvider(u8),
    NoMemory,
}

impl From<AllocError> for LineFault {
    ghost from_gives = { λ _ fault. fault ≡ faults.NoMemory };

    fn from(_: AllocError) -> Self {
        LineFault::NoMemory
    }
}

impl From<OutOfMemory> for LineFault {
    ghost from_gives = { λ _ fault. fault ≡ faults.NoMemory };

    fn from(_: OutOfMemory) -> Self {
        LineFault::NoMemory
    }
}
