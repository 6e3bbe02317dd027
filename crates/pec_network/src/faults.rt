ghost use Rattle.std.specs.Prelude.{◌≡◌};
ghost use Rattle.pec_network.specs.Restarting.{restarted_as};
ghost use Rattle.pec_network.specs.declared.faults.StartFault.TheVariants as start;

use pec_provider::ReopenFault;
use pec_types::NoMemory;
use std::alloc::AllocError;

/// Why the journal on a disk isn't a provider's own.
#[derive(Clone, Copy, Debug, PartialEq, Eq)]
pub enum NotFit {
    /// The bytes are no journal: the place of the header, the gate or the length that isn't there, or of the length of
    /// an entry that runs past the end.
    Journal(u64),
    /// The journal was made with another directory: the digest that it keeps, and that of the directory that was given.
    OtherDirectory([u8; 32], [u8; 32]),
    /// The number, from 0, of the first entry whose bytes are none or which is no step; 0 where there is no Start of
    /// this provider.
    BadEntry(u64),
}

/// Why a provider isn't restarted.
#[derive(Clone, Copy, Debug, PartialEq, Eq)]
pub enum RestartFault {
    /// It isn't down.
    Up,
    /// Its disk failed in this call.
    DiskFault,
    NotFit(NotFit),
    NoMemory,
}

impl From<ReopenFault> for RestartFault {
    ghost from_gives = { λ was fault. fault ≡ restarted_as was };

    fn from(fault: ReopenFault) -> Self {
        match fault {
            ReopenFault::DiskFault => RestartFault::DiskFault,
            ReopenFault::NotAJournal(place) => RestartFault::NotFit(NotFit::Journal(place)),
            ReopenFault::OtherDirectory(kept, given) => {
                RestartFault::NotFit(NotFit::OtherDirectory(kept, given))
            }
            ReopenFault::BadEntry(number) => RestartFault::NotFit(NotFit::BadEntry(number)),
            ReopenFault::NoMemory => RestartFault::NoMemory,
        }
    }
}

/// Why a network doesn't begin, with the number of the provider whose disk came to nothing.
#[derive(Clone, Copy, Debug, PartialEq, Eq)]
pub enum StartFault {
    /// A journal was to be made, and the disk's size isn't 0.
    NotEmpty(u32),
    /// The depot didn't hand out the disk, or the disk failed.
    DiskFault(u32),
    /// A journal was to be opened, and that on the disk isn't the provider's own.
    NotFit(u32, NotFit),
    NoMemory,
}

impl From<AllocError> for StartFault {
    ghost from_gives = { λ _ fault. fault ≡ start.NoMemory };

    fn from(_: AllocError) -> Self {
        StartFault::NoMemory
    }
}

impl From<NoMemory> for StartFault {
    ghost from_gives = { λ _ fault. fault ≡ start.NoMemory };

    fn from(_: NoMemory) -> Self {
        StartFault::NoMemory
    }
}
