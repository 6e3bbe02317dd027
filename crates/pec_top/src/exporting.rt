ghost use Rattle.std.specs.Prelude.{◌≡◌, IfOk, IsErrOf};
ghost use Rattle.pec_input.specs.Finding.{IsAtEnd};
ghost use Rattle.pec_ldif.specs.Writing.{ldif_text};
ghost use Rattle.pec_dossier.specs.Exports.{Exported};
ghost use Rattle.pec_top.specs.Blaming.{BlamesDevices};
ghost use Rattle.pec_top.specs.Shown.{result_shown};

use crate::ending::{End, Stop};
use crate::input::Input;
use crate::run::write_last;
use pec_ldif::ldif_of;
use pec_outside::{Sink, Source};
use std::alloc::Global;

/// Reads the input to its end, and writes the directory that it is.
pub(crate) fn export_form<S: Source, W: Sink>(
    alloc: Global,
    input: &mut S,
    out: &mut W,
) -> Result<End, Stop>
    ensures exported { Exported ldif_text (result_shown result) (S.left input.old) (W.held out.old) (W.held out.new) }
    ensures all_read { IfOk result (λ end. end ≡ End.Done → IsAtEnd (S.left input.new)) }
    ensures blame { BlamesDevices result (S.faults input.old) (S.faults input.new)
        (W.faults out.old) (W.faults out.new) }
    ensures started { IsErrOf result Stop.StartFault → ⊥ }
{
    match Input::whole(alloc, input)? {
        Input::Opens(directory) => {
            let text = ldif_of(alloc, &directory)?;
            let end = write_last(out, &text, End::Done)?;
            Ok(end)
        }
        Input::Ends(text, last) => {
            let end = write_last(out, &text, last)?;
            Ok(end)
        }
    }
}
