ghost use Rattle.std.specs.Prelude.{◌≡◌};
ghost use Rattle.pec_stock.specs.Opening.{as_reopened};
ghost use Rattle.pec_stock.specs.declared.faults.ReopenFault.TheVariants as reopen;

use pec_chronicle::OpenFault;
use pec_types::NoMemory;

/// Why a journal was not opened again, in the order in which the causes are looked for.
#[derive(Clone, Copy, Debug, PartialEq, Eq)]
pub enum ReopenFault {
    DiskFault,
    /// The bytes are no journal: the place of the header, the gate or the length that isn't there, or of the length of
    /// an entry that runs past the end.
    NotAJournal(u64),
    /// The journal was made with another directory: the digest that it keeps, and that of the directory that was given.
    OtherDirectory([u8; 32], [u8; 32]),
    /// The number, from 0, of the first entry whose bytes are none or which is no step; 0 where there is no Start of
    /// this provider.
    BadEntry(u64),
    NoMemory,
}

impl From<NoMemory> for ReopenFault {
    ghost from_gives = { λ _ fault. fault ≡ reopen.NoMemory };

    fn from(_: NoMemory) -> Self {
        ReopenFault::NoMemory
    }
}

impl From<OpenFault> for ReopenFault {
    ghost from_gives = { λ was fault. fault ≡ as_reopened was };

    fn from(fault: OpenFault) -> Self {
        match fault {
            OpenFault::DiskFault => ReopenFault::DiskFault,
            OpenFault::NotAJournal(place) => ReopenFault::NotAJournal(place),
            OpenFault::BadEntry(number) => ReopenFault::BadEntry(number),
            OpenFault::NoMemory => ReopenFault::NoMemory,
        }
    }
}
