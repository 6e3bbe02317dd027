ghost use Rattle.std.specs.Prelude.{◌≡◌, ℕ, ◌<◌, ◌≤◌, [], length};
ghost use Rattle.pec_types.specs.declared.moments.TheConstants.{END_OF_TIME};
ghost use Rattle.pec_outside.specs.Flow.{HasRisen};
ghost use Rattle.pec_http.specs.declared.serving.Served.TheVariants as served;
ghost use Rattle.pec_playing.specs.Doing.{Keeps};
ghost use Rattle.pec_playing.specs.OfNetworks.{AllStand, world_of};
ghost use Rattle.pec_playing.specs.Points.{state_in};
ghost use Rattle.pec_service.specs.OfRuns.{MovesOn};
ghost use Rattle.pec_serving.specs.Hearing.{Hears};
ghost use Rattle.pec_serving.specs.Playing.{state_of};

use pec_desk::{NetworkDesk, an_account_sees_its_own};
use pec_http::{Served, serve_one};
use pec_outside::{Disk, Sink, Source};
use pec_playing::{Network, what_carries_on_is_a_moment, what_is_told_was_counted};
use pec_plays::a_network_stays_sound;
use pec_screen::Judge;
use pec_seal::{HmacSealer, Sealer};
use pec_types::Moment;
use std::alloc::Global;

/// Answers the request of a connection at the desk of a network, at a moment. The network is given back as the desk
/// left it.
pub(crate) fn answer<D: Disk, J: Judge, C: Source + Sink>(
    alloc: Global,
    network: Network<D, HmacSealer, J>,
    moment: Moment,
    connection: &mut C,
) -> (Network<D, HmacSealer, J>, Served)
    // What is read is what was kept, where disks tell what they hold, and what is kept stands on them.
    ensures hears { (elsewhere : ℕ → ℕ)
        → Hears (world_of (⟦<HmacSealer as Sealer>⟧.seals) network) (D.tells × AllStand D.sight network.providers)
        network.kept moment
        (state_of D.faults elsewhere network) (state_of D.faults elsewhere result.0)
        (C.left connection.old) (C.held connection.old) (C.held connection.new) result.1 }
    ensures keeps { Keeps D.sight D.faults D.tells network result.0 }
    // What a crash may leave at any moment of it.
    ensures moves { (elsewhere : ℕ → ℕ) → moment < END_OF_TIME
        → MovesOn (world_of (⟦<HmacSealer as Sealer>⟧.seals) network) D.tells D.sight D.faults
        (state_in D.faults elsewhere [] network) (state_in D.faults elsewhere [] result.0) }
    ensures read_fault { result.1 ≡ served.ReadFault → HasRisen (C.faults connection.old) (C.faults connection.new) }
    ensures write_fault { result.1 ≡ served.WriteFault → HasRisen (C.faults connection.old) (C.faults connection.new) }
{
    an_account_sees_its_own::<D, HmacSealer>();
    what_is_told_was_counted::<D>();
    what_carries_on_is_a_moment::<D, HmacSealer>();
    a_network_stays_sound();
    as_many_providers(&network);
    let mut desk = NetworkDesk::open(network, moment);
    let told = serve_one(alloc, connection, &mut desk);
    let network = desk.close();
    as_many_providers(&network);
    (network, told)
}

/// A network has the providers of its directory.
pub(crate) fn as_many_providers<D, S: Sealer, J: Judge>(network: &Network<D, S, J>)
    ensures { length network.now.providers ≡ length network.now.kept }
{
    network.directory();
}
