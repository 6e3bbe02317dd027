ghost use Rattle.std.specs.Prelude.{◌≡◌};
ghost use Rattle.pec_directory.specs.declared.faults.DirectoryFault.TheVariants as faults;

use pec_types::NoMemory;
use std::alloc::{AllocError, AllocFailed};

/// A field of a provider or of an account.
#[derive(Clone, Copy, Debug, PartialEq, Eq)]
pub enum Field {
    Name,
    MailReceipt,
    ManagedDomains,
    /// The key of a provider's seals, or of an account's owner.
    Key,
    Zone,
    Limit,
    Account,
    Address,
    Quota,
}

/// Why a text is no directory. Providers count from 0, and a provider's accounts from 1, where 0 is its receipt
/// address. This project's profile.
#[derive(Clone, Copy, Debug, PartialEq, Eq)]
pub enum DirectoryFault {
    /// It isn't TOML.
    NotToml,
    /// A field isn't of its type and form.
    BadField(u32, Field),
    /// An earlier provider has the name.
    NameTwice(u32),
    /// An earlier provider has the domain, or the provider itself has it twice.
    DomainTwice(u32),
    /// It isn't an address.
    BadAddress(u32, u32),
    /// The address isn't in the provider's domains.
    AccountOutside(u32, u32),
    /// An account before it has the address, or receipts go to it, or providers write from it.
    AccountTwice(u32, u32),
    /// A provider's key isn't 32 to 128 hexadecimal digits in lower case, an even number of them.
    BadKey(u32),
    /// The rule of a zone isn't one.
    BadZone(u32),
    /// There are more than 16 providers or 10,000 accounts.
    TooMany,
    /// `provider` isn't an array of one table or more.
    NoProvider,
    NoMemory,
}

impl From<AllocError> for DirectoryFault {
    ghost from_gives = { λ _ fault. fault ≡ faults.NoMemory };

    fn from(_: AllocError) -> Self {
        DirectoryFault::NoMemory
    }
}

impl<T: Drop> From<AllocFailed<T>> for DirectoryFault {
    ghost from_gives = { λ _ fault. fault ≡ faults.NoMemory };

    fn from(_: AllocFailed<T>) -> Self {
        DirectoryFault::NoMemory
    }
}

impl From<NoMemory> for DirectoryFault {
    ghost from_gives = { λ _ fault. fault ≡ faults.NoMemory };

    fn from(_: NoMemory) -> Self {
        DirectoryFault::NoMemory
    }
}
