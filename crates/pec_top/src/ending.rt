ghost use Rattle.pec_top.specs.Shown.{played_stop, stop_of};
ghost use Rattle.pec_top.specs.declared.ending.Stop.TheVariants as stops;
ghost use Rattle.std.specs.Prelude.{◌≡◌};

use pec_input::InputFault;
use pec_outside::Failed;
use pec_serving::Stop as PlayStop;
use pec_types::NoMemory;

/// How a run ends, where no device stops it and memory is there.
#[derive(Clone, Copy, Debug, PartialEq, Eq)]
pub(crate) enum End {
    Done,
    Usage,
    Refused,
    NotEmpty,
    NotFit,
    TooLong,
}

/// What stops a run before its end.
#[derive(Clone, Copy, Debug, PartialEq, Eq)]
pub(crate) enum Stop {
    NoMemory,
    ReadFault,
    WriteFault,
    /// A disk failed, or the depot did, while journals were made or opened.
    StartFault,
    ClockFault,
    DoorFault,
}

impl From<NoMemory> for Stop {
    ghost from_gives = { λ _ stop. stop ≡ stops.NoMemory };

    fn from(_: NoMemory) -> Self {
        Stop::NoMemory
    }
}

impl From<InputFault> for Stop {
    ghost from_gives = { λ fault stop. stop ≡ stop_of fault };

    fn from(fault: InputFault) -> Self {
        match fault {
            InputFault::NoMemory => Stop::NoMemory,
            InputFault::ReadFault => Stop::ReadFault,
        }
    }
}

impl From<PlayStop> for Stop {
    ghost from_gives = { λ stop other. other ≡ played_stop stop };

    fn from(stop: PlayStop) -> Self {
        match stop {
            PlayStop::NoMemory => Stop::NoMemory,
            PlayStop::WriteFault => Stop::WriteFault,
        }
    }
}

/// A write failed.
impl From<Failed> for Stop {
    ghost from_gives = { λ _ stop. stop ≡ stops.WriteFault };

    fn from(_: Failed) -> Self {
        Stop::WriteFault
    }
}
