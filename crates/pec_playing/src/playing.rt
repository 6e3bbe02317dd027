ghost use Rattle.std.specs.Prelude.{◌≡◌, ◌≤◌, length, map, IfOk, IsErrOf};
ghost use Rattle.pec_outside.specs.Depots.{Alike};
ghost use Rattle.pec_outside.specs.Flow.{HasRisen};
ghost use Rattle.pec_directory.specs.Directory.{providers_of};
ghost use Rattle.pec_network.specs.Network.{sites, world_of};
ghost use Rattle.pec_runs.specs.ScriptLines.{command_in};
ghost use Rattle.pec_playing.specs.Doing.{Carries, Does, Keeps};
ghost use Rattle.pec_playing.specs.Looking.{LooksBy};
ghost use Rattle.pec_playing.specs.Playing.{CanPlay};
ghost use Rattle.pec_playing.specs.Points.{GoesBy, stop_in};
ghost use Rattle.pec_playing.specs.Spares.{LeavesSpares, NeedsNoSpare, last_spare};

use crate::accounts::{archive, book, mailbox, show, vault, vault_show};
use crate::crashes::{crash, restart};
use crate::links::{inject, lose, repeat, swap};
use crate::providers::{submit, tick, upgrade};
use crate::rounds::round;
use crate::stops::Stop;
use crate::swapping::screen;
use pec_network::Network;
use pec_network::laws::a_call_leaves_what_follows;
use pec_outside::{Depot, Disk, Sink, write_all};
use pec_runs::an_act_is_done;
use pec_screen::Judge;
use pec_script::Command;
use pec_seal::Sealer;
use pec_types::NoMemory;
use std::alloc::Global;
use std::thread::Threads;

/// Plays a command of a script, and writes the lines of its answer. A further screen is the last of the spares, which is
/// taken from them. Want of memory ends the run: the command may have been played then, in whole or in part, and none of
/// its lines is written.
pub fn play_and_write<
    X: Threads + Sync,
    D: Disk + Send,
    S: Sealer + Sync,
    P: Depot<D = D>,
    J: Judge + Send,
    W: Sink,
>(
    rt: &X,
    alloc: Global,
    network: &mut Network<D, S, J>,
    depot: &mut P,
    spares: &mut Vec<J::Spare>,
    command: Command,
    out: &mut W,
) -> Result<(), Stop>
where
    J::Spare: Send,
    requires can { CanPlay (length network.old.kept) command }
    // A run goes by the command alone: it is played, and the lines of its answer are written, or a front of them.
    ensures goes { GoesBy (P.tells × D.tells) D.sight D.faults S.seals
        (command_in (last_spare (map J.spare_patterns spares.old.items)) command)
        (map J.spare_patterns spares.old.items) (map J.spare_patterns spares.new.items) network.old network.new
        (W.held out.old) (W.held out.new) (W.faults out.old) (W.faults out.new) (stop_in result) }
    ensures keeps { Keeps D.sight D.faults D.tells network.old network.new }
    // At every moment a crash leaves of each disk what may follow, also where memory ran out or the output failed.
    ensures carries { Carries D.sight D.tells (world_of S.seals network.old) network.old network.new }
    ensures home { P.tells → Alike (P.home depot.old) (P.home depot.new) }
    ensures last { Alike (P.last depot.old) (P.last depot.new) }
    ensures later { (P.faults depot.old ≤ P.faults depot.new) × (W.faults out.old ≤ W.faults out.new) }
    ensures write_fault { IsErrOf result Stop.WriteFault → HasRisen (W.faults out.old) (W.faults out.new) }
    // Screens look at submissions and in rounds alone, and keep what they look for but where they are replaced.
    ensures looked { LooksBy (providers_of network.old.kept) (sites network.old)
        (command_in (last_spare (map J.spare_patterns spares.old.items)) command)
        network.old.looks network.new.looks }
    ensures spared { NeedsNoSpare command → spares.new ≡ spares.old }
{
    an_act_is_done::<P>();
    a_call_leaves_what_follows::<D>();
    let text = play_command(rt, alloc, network, depot, spares, command)?;
    write_all(out, &text)?;
    Ok(())
}

/// Plays a command, and gives the lines of its answer, whatever is known of disks.
fn play_command<
    X: Threads + Sync,
    D: Disk + Send,
    S: Sealer + Sync,
    P: Depot<D = D>,
    J: Judge + Send,
>(
    rt: &X,
    alloc: Global,
    network: &mut Network<D, S, J>,
    depot: &mut P,
    spares: &mut Vec<J::Spare>,
    command: Command,
) -> Result<Vec<u8>, NoMemory>
where
    J::Spare: Send,
    requires can { CanPlay (length network.old.kept) command }
    ensures does { Does D.sight D.faults D.tells (world_of S.seals network.old)
        (command_in (last_spare (map J.spare_patterns spares.old.items)) command) network.old network.new result }
    ensures carries { Carries D.sight D.tells (world_of S.seals network.old) network.old network.new }
    ensures home { P.tells → Alike (P.home depot.old) (P.home depot.new) }
    ensures last { Alike (P.last depot.old) (P.last depot.new) }
    ensures later { P.faults depot.old ≤ P.faults depot.new }
    ensures looked { LooksBy (providers_of network.old.kept) (sites network.old)
        (command_in (last_spare (map J.spare_patterns spares.old.items)) command)
        network.old.looks network.new.looks }
    ensures left { IfOk result (λ text. LeavesSpares (world_of S.seals network.old)
        (map J.spare_patterns spares.old.items) (sites network.old)
        (command_in (last_spare (map J.spare_patterns spares.old.items)) command)
        (map J.spare_patterns spares.new.items)) }
    ensures spared { NeedsNoSpare command → spares.new ≡ spares.old }
{
    a_call_leaves_what_follows::<D>();
    match command {
        Command::Submit {
            provider,
            moment,
            sender,
            path,
            message,
        } => submit(
            alloc,
            network,
            provider,
            moment,
            &sender,
            path.as_slice(),
            message.bytes(),
        ),
        Command::Tick { provider, moment } => tick(alloc, network, provider, moment),
        Command::Round { moment } => round(rt, alloc, network, moment),
        Command::Lose { from, to, place } => lose(alloc, network, from, to, place),
        Command::Repeat { from, to, place } => repeat(alloc, network, from, to, place),
        Command::Swap { from, to, place } => swap(alloc, network, from, to, place),
        Command::Inject { from, to, frame } => inject(alloc, network, from, to, frame),
        Command::Crash { provider } => crash(alloc, network, depot, provider),
        Command::Restart { provider } => restart(alloc, network, provider),
        Command::Book { address } => book(alloc, network, &address),
        Command::Mailbox { address } => mailbox(alloc, network, &address),
        Command::Show { address, place } => show(alloc, network, &address, place),
        Command::Archive {
            address,
            moment,
            place,
        } => { archive(alloc, network, &address, moment, place) }
        Command::Upgrade { provider, moment } => upgrade(alloc, network, provider, moment),
        Command::Vault { address } => vault(alloc, network, &address),
        Command::VaultShow { address, place } => vault_show(alloc, network, &address, place),
        Command::Screen { provider, place } => screen(alloc, network, spares, provider, place),
    }
}
