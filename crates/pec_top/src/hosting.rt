ghost use Rattle.std.specs.Prelude.{◌≡◌, ℕ, Ok, Option, map};
ghost use Rattle.pec_types.specs.Bytes.{Bytes};
ghost use Rattle.pec_directory.specs.Directory.{providers_of};
ghost use Rattle.pec_input.specs.Finding.{IsAtEnd};
ghost use Rattle.pec_top.specs.Hosting.{CountsGo, HasServedOver, counts_of, ended_as};
ghost use Rattle.pec_top.specs.Inputs.{IsWholeTaken};
ghost use Rattle.pec_top.specs.Running.{AreHomeAgain};
ghost use Rattle.pec_top.specs.Shown.{result_shown};

use crate::ending::{End, Stop};
use crate::input::Input;
use crate::laws::a_network_is_whole;
use crate::opening::{Journals, end_refused, open};
use crate::run::write_last;
use pec_directory::Directory;
use pec_outside::{Depot, Disk, Door, Sink, Source, Ticks};
use pec_screen::Judge;
use pec_serving::{Ending, serve};
use std::alloc::Global;
use std::thread::Threads;

/// Runs the program in the form that serves so many connections at the desk of the network whose directory is the
/// input.
pub(crate) fn serve_form<
    X: Threads + Sync,
    S: Source,
    W: Sink,
    P: Depot,
    T: Ticks,
    R: Door,
    J: Judge + Send,
>(
    rt: &X,
    alloc: Global,
    wanted: u32,
    input: &mut S,
    out: &mut W,
    depot: &mut P,
    ticks: &mut T,
    door: &mut R,
    screens: Vec<J>,
) -> Result<End, Stop>
where
    J::Spare: Send,
    ensures served { HasServedOver (P.tells × P.D.tells) P.D.sight P.D.faults
        (record { wanted = wanted; screens = map J.patterns screens.items })
        (result_shown result) (S.left input.old) (W.held out.old) (W.held out.new)
        (P.home depot.old) (P.home depot.new)
        (record { moments = T.coming ticks.old; requests = R.requests door.old; replies = R.replies door.old })
        (record { moments = T.coming ticks.new; requests = R.requests door.new; replies = R.replies door.new })
        (P.last depot.old) (P.last depot.new) }
    ensures all_read { result ≡ Ok End.Done → IsAtEnd (S.left input.new) }
    ensures counts { CountsGo (result_shown result)
        (counts_of (S.faults input.old) (W.faults out.old) (P.faults depot.old) (P.last depot.old) (T.faults ticks.old)
        (R.faults door.old))
        (counts_of (S.faults input.new) (W.faults out.new) (P.faults depot.new) (P.last depot.new) (T.faults ticks.new)
        (R.faults door.new)) }
    ensures home { P.tells → AreHomeAgain (P.home depot.old) (P.home depot.new) }
    ensures out { R.out door.new ≡ R.out door.old }
{
    match Input::whole(alloc, input)? {
        Input::Opens(directory) => {
            serve_opened(
                rt, alloc, wanted, directory, out, depot, ticks, door, screens,
            )
        }
        Input::Ends(text, end) => write_last(out, &text, end),
    }
}

/// Begins the network of a directory, serves at its desk, and keeps its disks in the depot again.
fn serve_opened<X: Threads + Sync, W: Sink, P: Depot, T: Ticks, R: Door, J: Judge + Send>(
    rt: &X,
    alloc: Global,
    wanted: u32,
    directory: Directory,
    out: &mut W,
    depot: &mut P,
    ticks: &mut T,
    door: &mut R,
    screens: Vec<J>,
) -> Result<End, Stop>
where
    J::Spare: Send,
    ensures served { (unread left : Option Bytes) → IsWholeTaken unread left (providers_of directory)
        → HasServedOver (P.tells × P.D.tells) P.D.sight P.D.faults
        (record { wanted = wanted; screens = map J.patterns screens.items })
        (result_shown result) unread (W.held out.old) (W.held out.new)
        (P.home depot.old) (P.home depot.new)
        (record { moments = T.coming ticks.old; requests = R.requests door.old; replies = R.replies door.old })
        (record { moments = T.coming ticks.new; requests = R.requests door.new; replies = R.replies door.new })
        (P.last depot.old) (P.last depot.new) }
    ensures counts { CountsGo (result_shown result)
        (counts_of 0 (W.faults out.old) (P.faults depot.old) (P.last depot.old) (T.faults ticks.old)
        (R.faults door.old))
        (counts_of 0 (W.faults out.new) (P.faults depot.new) (P.last depot.new) (T.faults ticks.new)
        (R.faults door.new)) }
    ensures home { P.tells → AreHomeAgain (P.home depot.old) (P.home depot.new) }
    ensures out { R.out door.new ≡ R.out door.old }
{
    match open(alloc, Journals::Chosen, directory, screens, depot) {
        Ok(network) => {
            a_network_is_whole(&network);
            let (network, ending) = serve(rt, alloc, network, depot, ticks, door, out, wanted);
            a_network_is_whole(&network);
            network.close(depot);
            ended(ending)
        }
        Err(refusal) => end_refused(refusal, out),
    }
}

/// How a run ends whose service ended so.
fn ended(ending: Ending) -> Result<End, Stop>
    ensures { result_shown result ≡ ended_as ending }
{
    match ending {
        Ending::AllServed => Ok(End::Done),
        Ending::NoMoment => Err(Stop::ClockFault),
        Ending::NoConnection => Err(Stop::DoorFault),
        Ending::NoMemory => Err(Stop::NoMemory),
        Ending::WriteFault => Err(Stop::WriteFault),
    }
}
