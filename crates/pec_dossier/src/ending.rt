ghost use Rattle.std.specs.Prelude.{◌≡◌};
ghost use Rattle.pec_dossier.specs.Reading.{stop_of};
ghost use Rattle.pec_dossier.specs.declared.ending.Stop.TheVariants as stops;

use pec_input::InputFault;
use pec_outside::Failed;
use pec_types::NoMemory;

/// How the lines of a dossier end, where no device stops the run and memory is there.
#[derive(Clone, Copy, Debug, PartialEq, Eq)]
pub enum Last {
    /// They were read to their end, and what they prove together was written.
    Done,
    /// A line isn't base64.
    Refused,
    /// A line is too long, or there are too many.
    TooLong,
}

/// What stops a run before its end.
#[derive(Clone, Copy, Debug, PartialEq, Eq)]
pub enum Stop {
    NoMemory,
    ReadFault,
    WriteFault,
}

impl From<NoMemory> for Stop {
    ghost from_gives = { λ _ stop. stop ≡ stops.NoMemory };

    fn from(_: NoMemory) -> Self {
        Stop::NoMemory
    }
}

impl From<InputFault> for Stop {
    ghost from_gives = { λ fault stop. stop ≡ stop_of fault };

    fn from(fault: InputFault) -> Self {
        match fault {
            InputFault::NoMemory => Stop::NoMemory,
            InputFault::ReadFault => Stop::ReadFault,
        }
    }
}

/// A write failed.
impl From<Failed> for Stop {
    ghost from_gives = { λ _ stop. stop ≡ stops.WriteFault };

    fn from(_: Failed) -> Self {
        Stop::WriteFault
    }
}
