ghost use Rattle.std.specs.Prelude.{◌≡◌, IfOk, IsErrOf};
ghost use Rattle.pec_input.specs.Finding.{IsAtEnd};
ghost use Rattle.pec_dossier.specs.Checks.{Checked};
ghost use Rattle.pec_top.specs.Blaming.{BlamesDevices};
ghost use Rattle.pec_top.specs.Checking.{ended_by};
ghost use Rattle.pec_top.specs.Shown.{result_shown};

use crate::ending::{End, Stop};
use crate::input::Input;
use crate::run::write_last;
use pec_dossier::{Last, Stop as LinesStop, check_lines};
use pec_input::Buffer;
use pec_outside::{Sink, Source};
use std::alloc::Global;

/// Reads the directory and the mark behind it, and checks the messages that the lines behind that save.
pub(crate) fn check_form<S: Source, W: Sink>(
    alloc: Global,
    input: &mut S,
    out: &mut W,
) -> Result<End, Stop>
    ensures checked { Checked (result_shown result) (S.left input.old) (W.held out.old) (W.held out.new) }
    ensures all_read { IfOk result (λ end. end ≡ End.Done → IsAtEnd (S.left input.new)) }
    ensures blame { BlamesDevices result (S.faults input.old) (S.faults input.new)
        (W.faults out.old) (W.faults out.new) }
    ensures started { IsErrOf result Stop.StartFault → ⊥ }
{
    let mut buffer = Buffer::new(alloc);
    match Input::read(alloc, input, &mut buffer)? {
        Input::Opens(directory) => ended_by(check_lines(
            alloc,
            &directory,
            input,
            &mut buffer,
            out,
        )),
        Input::Ends(text, end) => write_last(out, &text, end),
    }
}

/// How a run ends whose lines ended so.
fn ended_by(lines: Result<Last, LinesStop>) -> Result<End, Stop>
    ensures { result ≡ ended_by lines }
{
    match lines {
        Ok(Last::Done) => Ok(End::Done),
        Ok(Last::Refused) => Ok(End::Refused),
        Ok(Last::TooLong) => Ok(End::TooLong),
        Err(LinesStop::NoMemory) => Err(Stop::NoMemory),
        Err(LinesStop::ReadFault) => Err(Stop::ReadFault),
        Err(LinesStop::WriteFault) => Err(Stop::WriteFault),
    }
}
