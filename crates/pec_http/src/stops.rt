ghost use Rattle.std.specs.Prelude.{◌≡◌};
ghost use Rattle.pec_http.specs.declared.stops.Stop.TheVariants as stops;

use pec_outside::Failed;
use pec_types::NoMemory;
use std::alloc::{AllocError, AllocFailed};

/// Why a request isn't put to the desk, in the order of the rows.
#[derive(Clone, Copy, Debug, PartialEq, Eq)]
pub enum Stop {
    /// The head has more bytes or more lines than a head may have.
    LargeHead,
    /// The input ends before the head does, or the head isn't one.
    BadHead,
    /// The target has no route.
    NoRoute,
    /// The route has another method.
    OtherMethod,
    /// The address is no account.
    NoAccount,
    /// There is no key.
    NoKey,
    /// The key isn't the account's.
    WrongKey,
    /// A submission doesn't declare its length.
    NoLength,
    /// A submission has no forward path.
    NoPath,
    /// The declared length is over the provider's limit.
    TooLarge,
    /// The input ends inside the body.
    CutBody,
    NoMemory,
    /// The connection failed, so nothing is answered.
    ReadFault,
}

impl From<NoMemory> for Stop {
    ghost from_gives = { λ _ stop. stop ≡ stops.NoMemory };

    fn from(_: NoMemory) -> Self {
        Stop::NoMemory
    }
}

impl From<AllocError> for Stop {
    ghost from_gives = { λ _ stop. stop ≡ stops.NoMemory };

    fn from(_: AllocError) -> Self {
        Stop::NoMemory
    }
}

impl<T: Drop> From<AllocFailed<T>> for Stop {
    ghost from_gives = { λ _ stop. stop ≡ stops.NoMemory };

    fn from(_: AllocFailed<T>) -> Self {
        Stop::NoMemory
    }
}

impl From<Failed> for Stop {
    ghost from_gives = { λ _ stop. stop ≡ stops.ReadFault };

    fn from(_: Failed) -> Self {
        Stop::ReadFault
    }
}
