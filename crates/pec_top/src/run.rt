ghost use Rattle.std.specs.Prelude.{◌≡◌, ◌≢◌, ℕ, ◌<◌, ◌≤◌, List, Some, None, length, map, IfOk};
ghost use Rattle.std.specs.Prelude.{IfErr, OnErr, IsErrOf, Option};
ghost use Rattle.pec_types.specs.Bytes.{Bytes};
ghost use Rattle.pec_outside.specs.Flow.{behind, followed_by, HasRisen, WrotePart};
ghost use Rattle.pec_directory.specs.Directory.{providers_of};
ghost use Rattle.pec_input.specs.Finding.{IsAtEnd};
ghost use Rattle.pec_runs.specs.Openings.{form_in};
ghost use Rattle.pec_top.specs.Blaming.{BlamesDevices, DisksGo};
ghost use Rattle.pec_top.specs.Inputs.{IsTaken};
ghost use Rattle.pec_top.specs.Reporting.{RanReporting};
ghost use Rattle.pec_top.specs.Running.{AreHomeAgain, asked_with};
ghost use Rattle.pec_top.specs.Shown.{form_shown, result_shown};

use crate::ending::{End, Stop};
use crate::forms::Form;
use crate::input::Input;
use crate::laws::a_network_is_whole;
use crate::opening::{Journals, end_refused, open};
use crate::reporting::Report;
use crate::script::play_script;
use pec_directory::Directory;
use pec_input::Buffer;
use pec_outside::{Depot, Disk, Sink, Source, write_all};
use pec_screen::Judge;
use std::alloc::Global;
use std::thread::Threads;

/// Runs the program in a form that plays a script, on its input and the disks of a depot.
pub(crate) fn run_form<X: Threads + Sync, S: Source, W: Sink, P: Depot, J: Judge + Send>(
    rt: &X,
    alloc: Global,
    form: Form,
    input: &mut S,
    out: &mut W,
    depot: &mut P,
    screens: Vec<J>,
    spares: Vec<J::Spare>,
    report: &mut Report,
) -> Result<End, Stop>
where
    J::Spare: Send,
    ensures ran { (words : List Bytes) → form_in words ≡ Some (form_shown form)
        → RanReporting (P.tells × P.D.tells) P.D.sight P.D.faults
        (asked_with words (map J.patterns screens.items) (map J.spare_patterns spares.items)) (result_shown result)
        (S.left input.old) (W.held out.old) (W.held out.new) (P.home depot.old) (P.home depot.new)
        (P.last depot.old) (P.last depot.new) report.old report.new }
    ensures all_read { IfOk result (λ end. end ≡ End.Done → IsAtEnd (S.left input.new)) }
    ensures blame { BlamesDevices result (S.faults input.old) (S.faults input.new)
        (W.faults out.old) (W.faults out.new) }
    ensures disks { DisksGo result (P.faults depot.old) (P.faults depot.new) (P.last depot.old) (P.last depot.new) }
    ensures home { P.tells → AreHomeAgain (P.home depot.old) (P.home depot.new) }
{
    let mut buffer = Buffer::new(alloc);
    match Input::read(alloc, input, &mut buffer)? {
        Input::Opens(directory) => {
            run_opened(
                rt,
                alloc,
                form,
                directory,
                input,
                &mut buffer,
                out,
                depot,
                screens,
                spares,
                report,
            )
        }
        Input::Ends(text, end) => write_last(out, &text, end),
    }
}

/// Begins the network of a directory, plays the script that is left, and keeps its disks in the depot again.
fn run_opened<X: Threads + Sync, S: Source, W: Sink, P: Depot, J: Judge + Send>(
    rt: &X,
    alloc: Global,
    form: Form,
    directory: Directory,
    source: &mut S,
    buffer: &mut Buffer,
    out: &mut W,
    depot: &mut P,
    screens: Vec<J>,
    spares: Vec<J::Spare>,
    report: &mut Report,
) -> Result<End, Stop>
where
    J::Spare: Send,
    ensures ran { (words : List Bytes) (unread : Option Bytes) → form_in words ≡ Some (form_shown form)
        → IsTaken unread (behind buffer.old (S.left source.old)) (providers_of directory)
        → RanReporting (P.tells × P.D.tells) P.D.sight P.D.faults
        (asked_with words (map J.patterns screens.items) (map J.spare_patterns spares.items)) (result_shown result)
        unread (W.held out.old) (W.held out.new) (P.home depot.old) (P.home depot.new)
        (P.last depot.old) (P.last depot.new) report.old report.new }
    ensures all_read { IfOk result (λ end. end ≡ End.Done → IsAtEnd (behind buffer.new (S.left source.new))) }
    ensures blame { BlamesDevices result (S.faults source.old) (S.faults source.new)
        (W.faults out.old) (W.faults out.new) }
    ensures disks { DisksGo result (P.faults depot.old) (P.faults depot.new) (P.last depot.old) (P.last depot.new) }
    ensures home { P.tells → AreHomeAgain (P.home depot.old) (P.home depot.new) }
{
    match open(alloc, Journals::As(form), directory, screens, depot) {
        Ok(network) => {
            let mut network = network;
            let mut spares = spares;
            a_network_is_whole(&network);
            let result = play_script(
                rt,
                alloc,
                &mut network,
                depot,
                &mut spares,
                source,
                buffer,
                out,
            );
            *report = report.of(&network);
            a_network_is_whole(&network);
            network.close(depot);
            result
        }
        Err(refusal) => end_refused(refusal, out),
    }
}

/// Writes the last line of a run that ends so.
pub(crate) fn write_last<W: Sink>(out: &mut W, line: &[u8], end: End) -> Result<End, Stop>
    ensures ok { IfOk result (λ last. (last ≡ end) × (W.held out.new ≡ followed_by (W.held out.old) line.now)) }
    ensures err { OnErr result (WrotePart (W.held out.old) (W.held out.new) line.now) }
    ensures stop { IfErr result (λ stop. stop ≡ Stop.WriteFault) }
    ensures write_fault { IsErrOf result Stop.WriteFault → HasRisen (W.faults out.old) (W.faults out.new) }
    ensures later { W.faults out.old ≤ W.faults out.new }
{
    write_all(out, line)?;
    Ok(end)
}
