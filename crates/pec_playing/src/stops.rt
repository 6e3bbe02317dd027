ghost use Rattle.std.specs.Prelude.{◌≡◌};
ghost use Rattle.pec_playing.specs.declared.stops.Stop.TheVariants as stops;

use pec_outside::Failed;
use pec_types::NoMemory;

/// What stops a run within a command.
#[derive(Clone, Copy, Debug, PartialEq, Eq)]
pub enum Stop {
    NoMemory,
    /// The output failed.
    WriteFault,
}

impl From<NoMemory> for Stop {
    ghost from_gives = { λ _ stop. stop ≡ stops.NoMemory };

    fn from(_: NoMemory) -> Self {
        Stop::NoMemory
    }
}

/// A write failed.
impl From<Failed> for Stop {
    ghost from_gives = { λ _ stop. stop ≡ stops.WriteFault };

    fn from(_: Failed) -> Self {
        Stop::WriteFault
    }
}
