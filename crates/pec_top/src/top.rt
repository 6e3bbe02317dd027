ghost use Rattle.std.specs.Prelude.{map, string_bytes};
ghost use Rattle.pec_top.specs.Shown.{status_shown};
ghost use Rattle.pec_top.specs.Tasks.{LeavesAlone, ProgramRan, task_in, view_of};

use crate::checking::check_form;
use crate::ending::End;
use crate::exporting::export_form;
use crate::extracting::extract_form;
use crate::forms::Task;
use crate::hosting::serve_form;
use crate::loading::load_form;
use crate::reporting::Report;
use crate::run::{run_form, write_last};
use crate::status::{Status, status_of};
use pec_outside::{Depot, Door, Sink, Source, Ticks};
use pec_screen::Judge;
use std::alloc::Global;
use std::thread::Threads;

/// Runs the program: `words` are its arguments, every line goes to `out`, and the journals of providers are on the
/// disks of the depot. In the forms `run`, which makes the journals, and `resume`, which opens them, `input` is the
/// directory, a line `%%` and the script. In the form `serve N` the input is the directory; it makes the journals where
/// all disks are empty, opens them otherwise, and serves N connections that come in at the door, each at the moment
/// that the clock tells. In the form `load N` no input is read: a directory and a script of N messages are made and
/// played as in the form `run`, and a summary of what has become of the messages is written in place of the lines. In
/// the form `ldif` the input is the directory, and it is written as LDIF. In the form `check` it is the directory, a
/// line `%%` and the letters that a party saved, each in base64 on a line; what they prove is written. In the form
/// `extract FROM TO` it is the directory; the journals are opened as in the form `resume`, and what they logged from
/// the moment FROM to the moment TO, both of which belong to the range, is written as CSV. The screens of a provider,
/// which look at what its accounts hand in and at what comes for them, are those at its number, and none where there
/// are fewer; a crash and a restart leave them as they are. A script's command `screen` puts the last of the spares in
/// the place of one. Moments are seconds since 1970-01-01T00:00:00Z. This project's profile of RFC 6109, sections 2
/// to 4.
pub fn run_pec<X: Threads + Sync, S: Source, W: Sink, P: Depot, T: Ticks, R: Door, J: Judge + Send>(
    rt: &X,
    alloc: Global,
    words: &[String],
    input: &mut S,
    out: &mut W,
    depot: &mut P,
    ticks: &mut T,
    door: &mut R,
    screens: Vec<J>,
    spares: Vec<J::Spare>,
) -> Status
where
    J::Spare: Send,
    // One run of the kind that the words ask for: what was written, the status, the counts of faults, what clock and
    // door gave and got, and what the disks hold; and at status 0 an input that is read was read to its end, each
    // connection that was accepted is closed, and each disk that was at home is at home again.
    ensures ran { ProgramRan P.tells P.D.tells P.D.sight P.D.faults (map string_bytes words.now)
        (map J.patterns screens.items) (map J.spare_patterns spares.items) (status_shown result)
        (view_of (S.left input.old) (S.faults input.old) (W.held out.old) (W.faults out.old)
        (P.home depot.old) (P.last depot.old) (P.faults depot.old) (T.coming ticks.old) (T.faults ticks.old)
        (R.requests door.old) (R.replies door.old) (R.out door.old) (R.faults door.old))
        (view_of (S.left input.new) (S.faults input.new) (W.held out.new) (W.faults out.new)
        (P.home depot.new) (P.last depot.new) (P.faults depot.new) (T.coming ticks.new) (T.faults ticks.new)
        (R.requests door.new) (R.replies door.new) (R.out door.new) (R.faults door.new)) }
    // For words that are no form, and with a load, no byte of the input is read; only a run that plays, serves or
    // extracts comes near a disk, and only one that serves asks clock and door.
    ensures alone { LeavesAlone (task_in (map string_bytes words.now)) input.old input.new depot.old depot.new
        ticks.old ticks.new door.old door.new }
{
    match Task::of(words) {
        Task::Play(form) => {
            let mut report = Report::Unasked;
            status_of(run_form(
                rt,
                alloc,
                form,
                input,
                out,
                depot,
                screens,
                spares,
                &mut report,
            ))
        }
        Task::Serve(wanted) => {
            status_of(serve_form(rt, alloc, wanted, input, out, depot, ticks, door, screens))
        }
        Task::Export => status_of(export_form(alloc, input, out)),
        Task::Check => status_of(check_form(alloc, input, out)),
        Task::Extract(from, upto) => {
            extract_form::<S, W, P, J>(alloc, from, upto, input, out, depot)
        }
        Task::Load(count) => status_of(load_form(rt, alloc, count, out, depot, screens)),
        Task::NoForm => status_of(write_last(out, b"usage\n", End::Usage)),
    }
}
