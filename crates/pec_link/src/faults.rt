ghost use Rattle.std.specs.Prelude.{◌≡◌};
ghost use Rattle.pec_link.specs.declared.faults.LinkFault.TheVariants as faults;

use pec_types::NoMemory;

/// Why a link stays as it is. In this order, where both hold.
#[derive(Clone, Copy, Debug, PartialEq, Eq)]
pub enum LinkFault {
    /// No frame waits at the place, or none behind it to exchange it with.
    NoFrame,
    /// As many frames wait as a link holds.
    Full,
    NoMemory,
}

impl From<NoMemory> for LinkFault {
    ghost from_gives = { λ _ fault. fault ≡ faults.NoMemory };

    fn from(_: NoMemory) -> Self {
        LinkFault::NoMemory
    }
}
