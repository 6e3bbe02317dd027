ghost use Rattle.std.specs.Prelude.{◌≡◌, ℕ, ◌≤◌, []};
ghost use Rattle.pec_outside.specs.Flow.{HasRisen};
ghost use Rattle.pec_playing.specs.Doing.{Keeps};
ghost use Rattle.pec_playing.specs.OfNetworks.{AllStand, world_of};
ghost use Rattle.pec_playing.specs.Points.{state_in};
ghost use Rattle.pec_service.specs.OfRuns.{MovesOn};
ghost use Rattle.pec_serving.specs.Serving.{ComesNext, place_of};

use crate::answering::answer;
use pec_http::Served;
use pec_outside::{Disk, Door, Ticks};
use pec_playing::Network;
use pec_screen::Judge;
use pec_seal::{HmacSealer, Sealer};
use pec_types::Moment;
use std::alloc::Global;

/// What comes next in a service.
#[derive(Clone, Copy)]
pub(crate) enum Came {
    /// A connection, which was served at this moment, in seconds.
    Served(Moment, Served),
    /// A connection, but the clock failed.
    NoMoment,
    /// The door failed.
    NoConnection,
}

/// Accepts the next connection, asks for the moment, answers the connection at the desk of the network at that moment,
/// and closes it. A connection for which there is no moment is closed unread.
pub(crate) fn next<D: Disk, J: Judge, T: Ticks, R: Door>(
    alloc: Global,
    network: Network<D, HmacSealer, J>,
    ticks: &mut T,
    door: &mut R,
) -> (Network<D, HmacSealer, J>, Came)
    // What is read is what was kept, where disks tell what they hold, and what is kept stands on them.
    ensures comes { (elsewhere : ℕ → ℕ)
        → ComesNext (world_of (⟦<HmacSealer as Sealer>⟧.seals) network) (D.tells × AllStand D.sight network.providers)
        network.kept
        (place_of D.faults elsewhere network (T.coming ticks.old) (R.requests door.old) (R.replies door.old))
        (place_of D.faults elsewhere result.0 (T.coming ticks.new) (R.requests door.new) (R.replies door.new))
        result.1 }
    ensures keeps { Keeps D.sight D.faults D.tells network result.0 }
    // What a crash may leave at any moment of it.
    ensures moves { (elsewhere : ℕ → ℕ) → MovesOn (world_of (⟦<HmacSealer as Sealer>⟧.seals) network) D.tells D.sight D.faults
        (state_in D.faults elsewhere [] network) (state_in D.faults elsewhere [] result.0) }
    ensures no_moment { result.1 ≡ Came.NoMoment → HasRisen (T.faults ticks.old) (T.faults ticks.new) }
    ensures no_connection { result.1 ≡ Came.NoConnection → HasRisen (R.faults door.old) (R.faults door.new) }
    // Each connection is given back.
    ensures out { R.out door.new ≡ R.out door.old }
    ensures clock_later { T.faults ticks.old ≤ T.faults ticks.new }
    ensures door_later { R.faults door.old ≤ R.faults door.new }
{
    let mut connection = match door.accept() {
        Ok(connection) => connection,
        Err(_) => return (network, Came::NoConnection),
    };
    let moment = match ticks.now() {
        Ok(moment) => moment,
        Err(_) => {
            door.close(connection);
            return (network, Came::NoMoment);
        }
    };
    let (network, told) = answer(alloc, network, moment, &mut connection);
    door.close(connection);
    (network, Came::Served(moment, told))
}
