ghost use Rattle.std.specs.Prelude.{◌≡◌, ℕ, ◌≤◌, [], length, IsErrOf};
ghost use Rattle.pec_outside.specs.Depots.{Alike};
ghost use Rattle.pec_outside.specs.Flow.{HasRisen};
ghost use Rattle.pec_directory.specs.Directory.{providers_of};
ghost use Rattle.pec_playing.specs.Doing.{Keeps};
ghost use Rattle.pec_playing.specs.OfNetworks.{AllStand, world_of};
ghost use Rattle.pec_playing.specs.Points.{point_of, stop_in};
ghost use Rattle.pec_service.specs.Calls.{ClockWent, clock_from};

use pec_outside::{Depot, Disk, Sink};
use pec_playing::{Network, Stop, play_and_write, what_is_kept_is_kept_on};
use pec_screen::Judge;
use pec_script::Command;
use pec_seal::Sealer;
use pec_service::{acts_are_calls, acts_are_joined};
use pec_types::Moment;
use std::alloc::Global;
use std::thread::Threads;

/// Has each provider look at the clock, in the order of the directory, and then plays one round, all at one moment. The
/// lines of each answer are written before the next command is played.
pub(crate) fn play_clock<
    X: Threads + Sync,
    D: Disk + Send,
    S: Sealer + Sync,
    P: Depot<D = D>,
    J: Judge + Send,
    W: Sink,
>(
    rt: &X,
    alloc: Global,
    network: &mut Network<D, S, J>,
    depot: &mut P,
    moment: Moment,
    out: &mut W,
) -> Result<(), Stop>
where
    J::Spare: Send,
    // Where disks tell what they hold, what is kept stands on them as the first command is played.
    ensures clock { (P.tells × D.tells → AllStand D.sight network.old.providers) → (elsewhere : ℕ → ℕ)
        → ClockWent (world_of S.seals network.old) (providers_of network.old.kept)
        (P.tells × D.tells) D.sight D.faults (clock_from (length network.old.kept) 0 moment)
        (point_of D.faults elsewhere [] network.old (W.held out.old) (W.faults out.old))
        (point_of D.faults elsewhere [] network.new (W.held out.new) (W.faults out.new)) (stop_in result) }
    ensures keeps { Keeps D.sight D.faults D.tells network.old network.new }
    ensures home { P.tells → Alike (P.home depot.old) (P.home depot.new) }
    ensures last { Alike (P.last depot.old) (P.last depot.new) }
    ensures later { (P.faults depot.old ≤ P.faults depot.new) × (W.faults out.old ≤ W.faults out.new) }
    ensures write_fault { IsErrOf result Stop.WriteFault → HasRisen (W.faults out.old) (W.faults out.new) }
{
    acts_are_joined::<P>();
    acts_are_calls::<P>();
    what_is_kept_is_kept_on::<D, S>();
    // No clock call takes a spare.
    let mut none: Vec<J::Spare> = Vec::new(alloc);
    for provider in 0..network.directory().count() {
        play_and_write(
            rt,
            alloc,
            network,
            depot,
            &mut none,
            Command::Tick { provider, moment },
            out,
        )?;
    }
    play_and_write(
        rt,
        alloc,
        network,
        depot,
        &mut none,
        Command::Round { moment },
        out,
    )
}
