ghost use Rattle.std.specs.Prelude.{◌≡◌};
ghost use Rattle.pec_runs.specs.Statuses.{code_of};
ghost use Rattle.pec_top.specs.Shown.{end_shown, log_shown, result_shown, status_shown, stop_shown};

use crate::ending::{End, Stop};
use pec_extract::ExtractFault;

/// How a run of the program ended. This project's profile.
#[derive(Clone, Copy, Debug, PartialEq, Eq)]
pub enum Status {
    /// The input was read to its end, and all commands were played.
    Done,
    /// The words are none of the program's forms.
    Usage,
    /// The input has no `%%` line, or the directory or a line of the script is refused.
    Refused,
    /// The input couldn't be read on.
    ReadFault,
    /// The output couldn't be written.
    WriteFault,
    NoMemory,
    /// A disk failed, or the depot did, while journals were made or opened.
    StartFault,
    /// A journal was to be made on a disk that isn't empty, or opened on one that doesn't begin as a journal does.
    NotEmpty,
    /// The journal on a disk isn't its provider's own.
    NotFit,
    /// The clock failed.
    ClockFault,
    /// The door failed.
    DoorFault,
    /// The directory, a line or the number of lines is past its limit.
    InputTooLong,
    /// A disk failed while an extract of logs was written.
    DiskFault,
    /// An entry isn't what was kept, of those that an extract of logs is of.
    Changed,
}

impl Status {
    /// The exit status of the program.
    pub fn code(&self) -> u8
        ensures { result ≡ code_of (status_shown self.now) }
    {
        match self {
            Status::Done => 0,
            Status::Usage => 2,
            Status::Refused => 3,
            Status::ReadFault => 4,
            Status::WriteFault => 5,
            Status::NoMemory => 6,
            Status::StartFault => 7,
            Status::NotEmpty => 8,
            Status::NotFit => 9,
            Status::ClockFault => 10,
            Status::DoorFault => 11,
            Status::InputTooLong => 12,
            Status::DiskFault => 13,
            Status::Changed => 14,
        }
    }
}

/// The status of a run that ended, or was stopped.
pub(crate) fn status_of(run: Result<End, Stop>) -> Status
    ensures shown { status_shown result ≡ result_shown run }
{
    match run {
        Ok(end) => end_status(end),
        Err(stop) => stop_status(stop),
    }
}

/// The status of a run that ended so.
fn end_status(end: End) -> Status
    ensures { status_shown result ≡ end_shown end }
{
    match end {
        End::Done => Status::Done,
        End::Usage => Status::Usage,
        End::Refused => Status::Refused,
        End::NotEmpty => Status::NotEmpty,
        End::NotFit => Status::NotFit,
        End::TooLong => Status::InputTooLong,
    }
}

/// The status of a run that was stopped so.
fn stop_status(stop: Stop) -> Status
    ensures { status_shown result ≡ stop_shown stop }
{
    match stop {
        Stop::NoMemory => Status::NoMemory,
        Stop::ReadFault => Status::ReadFault,
        Stop::WriteFault => Status::WriteFault,
        Stop::StartFault => Status::StartFault,
        Stop::ClockFault => Status::ClockFault,
        Stop::DoorFault => Status::DoorFault,
    }
}

/// The status of a run that wrote an extract of logs, or was stopped so.
pub(crate) fn log_status(written: Result<(), ExtractFault>) -> Status
    ensures shown { status_shown result ≡ log_shown written }
{
    match written {
        Ok(_) => Status::Done,
        Err(ExtractFault::NoMemory) => Status::NoMemory,
        Err(ExtractFault::WriteFault) => Status::WriteFault,
        Err(ExtractFault::DiskFault) => Status::DiskFault,
        Err(ExtractFault::Changed(_)) => Status::Changed,
    }
}
