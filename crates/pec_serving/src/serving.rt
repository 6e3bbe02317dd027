ghost use Rattle.std.specs.Prelude.{◌≡◌, ℕ, ◌≤◌, []};
ghost use Rattle.pec_outside.specs.Depots.{Alike};
ghost use Rattle.pec_outside.specs.Flow.{HasRisen};
ghost use Rattle.pec_playing.specs.Doing.{Keeps};
ghost use Rattle.pec_playing.specs.OfNetworks.{AllStand, world_of};
ghost use Rattle.pec_playing.specs.Points.{state_in};
ghost use Rattle.pec_service.specs.OfRuns.{Moves};
ghost use Rattle.pec_serving.specs.Serving.{ServesSo, place_of};

use crate::clock::play_clock;
use crate::lines::write_outcome;
use crate::next::{Came, next};
use pec_outside::{Depot, Disk, Door, Sink, Ticks};
use pec_playing::{Network, Stop};
use pec_screen::Judge;
use pec_seal::{HmacSealer, Sealer};
use pec_service::{acts_are_calls, calls_are_joined, connections_are_joined, moves_are_joined};
use std::alloc::Global;
use std::thread::Threads;

/// How a service ends.
#[derive(Clone, Copy, Debug, PartialEq, Eq)]
pub enum Ending {
    /// As many connections were served as were asked for.
    AllServed,
    /// The door failed.
    NoConnection,
    /// The clock failed, and the connection that had come in was closed unread.
    NoMoment,
    /// Memory ran out behind an answer.
    NoMemory,
    /// The output failed.
    WriteFault,
}

/// Serves so many connections, one after another, over a network whose journals are made or opened. Each is answered at
/// the desk of the network at one moment, its line is written, and then every provider looks at the clock, in the order
/// of the directory, and one round is played, all at that moment. This project's profile.
pub fn serve<
    X: Threads + Sync,
    D: Disk + Send,
    P: Depot<D = D>,
    J: Judge + Send,
    T: Ticks,
    R: Door,
    W: Sink,
>(
    rt: &X,
    alloc: Global,
    network: Network<D, HmacSealer, J>,
    depot: &mut P,
    ticks: &mut T,
    door: &mut R,
    out: &mut W,
    wanted: u32,
) -> (Network<D, HmacSealer, J>, Ending)
where
    J::Spare: Send,
    // Where disks tell what they hold, what is kept stands on them as the service begins.
    ensures serves { (P.tells × D.tells → AllStand D.sight network.providers) → (elsewhere : ℕ → ℕ)
        → ServesSo (world_of (⟦<HmacSealer as Sealer>⟧.seals) network) (P.tells × D.tells) D.sight D.faults network.kept
        wanted (state_in D.faults elsewhere [] network) (state_in D.faults elsewhere [] result.0)
        (place_of D.faults elsewhere network (T.coming ticks.old) (R.requests door.old) (R.replies door.old))
        (place_of D.faults elsewhere result.0 (T.coming ticks.new) (R.requests door.new) (R.replies door.new))
        (W.held out.old) (W.held out.new) result.1 }
    ensures keeps { Keeps D.sight D.faults D.tells network result.0 }
    // What a crash may leave at any moment of it.
    ensures moves { (P.tells × D.tells → AllStand D.sight network.providers) → (elsewhere : ℕ → ℕ)
        → Moves (world_of (⟦<HmacSealer as Sealer>⟧.seals) network) (P.tells × D.tells) D.sight D.faults
        (state_in D.faults elsewhere [] network) (state_in D.faults elsewhere [] result.0) }
    ensures home { P.tells → Alike (P.home depot.old) (P.home depot.new) }
    ensures last { Alike (P.last depot.old) (P.last depot.new) }
    ensures depot_later { P.faults depot.old ≤ P.faults depot.new }
    ensures no_moment { result.1 ≡ Ending.NoMoment → HasRisen (T.faults ticks.old) (T.faults ticks.new) }
    ensures no_connection { result.1 ≡ Ending.NoConnection → HasRisen (R.faults door.old) (R.faults door.new) }
    ensures write_fault { result.1 ≡ Ending.WriteFault → HasRisen (W.faults out.old) (W.faults out.new) }
    // Each connection is given back.
    ensures out { R.out door.new ≡ R.out door.old }
    ensures clock_later { T.faults ticks.old ≤ T.faults ticks.new }
    ensures door_later { R.faults door.old ≤ R.faults door.new }
    ensures out_later { W.faults out.old ≤ W.faults out.new }
{
    calls_are_joined::<P>();
    connections_are_joined::<P>();
    acts_are_calls::<P>();
    moves_are_joined::<P>();
    let mut network = network;
    for served in 0..wanted {
        let (again, came) = next(alloc, network, ticks, door);
        network = again;
        match came {
            Came::NoConnection => return (network, Ending::NoConnection),
            Came::NoMoment => return (network, Ending::NoMoment),
            Came::Served(moment, told) => {
                if let Err(_) = write_outcome(out, told) {
                    return (network, Ending::WriteFault);
                }
                match play_clock(rt, alloc, &mut network, depot, moment, out) {
                    Ok(()) => (),
                    Err(Stop::WriteFault) => return (network, Ending::WriteFault),
                    Err(Stop::NoMemory) => return (network, Ending::NoMemory),
                }
            }
        }
    }
    (network, Ending::AllServed)
}
